ghost use Rattle.std.specs.Prelude.{◌≡◌, ◌≤◌, ◌<◌, ◌+◌, ◌-◌, ◌↔◌, ◌++◌, ℕ, List, [], Some, false, IsTrue, IfOk, IfErr, IfSome, IsErrOf, if◌then◌else◌, length, min, take, vec_len, vec_capacity};
ghost use Rattle.ng_outside.specs.Causes.{raised};
ghost use Rattle.ng_outside.specs.Files.{content_of};
ghost use Rattle.ng_outside.specs.Memory.{ShelfState, SinkState, fetch_fails, put_fails};

use crate::files::content;
use crate::plan::Plan;
use crate::shelf::{FetchError, Shelf};
use crate::sink::{Sink, SinkError};
use std::alloc::{AllocError, Global};
use std::marker::Model;

/// A shelf in memory whose calls fail as it is told: for tests.
///
/// A fetch fails exactly where its number is listed or no file has the name. One count of failures serves all names.
#[derive(Drop)]
pub struct MemShelf {
    files: Vec<(String, Vec<u8>)>,
    plan: Plan,
}

impl Model for MemShelf {
    ghost Value = { ShelfState };

    ghost view = { λ shelf. record { files = shelf.files.items; fails = shelf.plan.fails.items; calls = shelf.plan.calls; faults = shelf.plan.faults } };
}

impl MemShelf {
    /// Makes a shelf of pairs of name and bytes, the first of a name counting, and of the numbers of the fetches that are
    /// to fail, from 1.
    pub fn new(files: Vec<(String, Vec<u8>)>, fails: Vec<u32>) -> MemShelf
        ensures { result ≡ record { files = files.items; fails = fails.items; calls = 0; faults = 0 } }
    {
        MemShelf {
            files,
            plan: Plan::new(fails),
        }
    }
}

impl Shelf for MemShelf {
    ghost told = { λ shelf name. content_of shelf.files name };

    ghost faults = { λ shelf _. shelf.faults };

    ghost read = { λ _. 0 };

    fn fetch(&mut self, alloc: Global, name: &str, limit: usize) -> Result<Vec<u8>, FetchError>
        ensures content { IfOk result (λ bytes. content_of self.old.files name.now ≡ Some bytes.items) }
        ensures ok_within { IfOk result (λ bytes. vec_len bytes ≤ limit) }
        ensures failed_exactly { IsErrOf result FetchError.Failed ↔ IsTrue (fetch_fails self.old name.now) }
        ensures too_long_told { IsErrOf result FetchError.TooLong →
            IfSome (content_of self.old.files name.now) (λ content. limit < length content) }
        ensures too_long_always { IfSome (content_of self.old.files name.now) (λ content. limit < length content →
            fetch_fails self.old name.now ≡ false → IsErrOf result FetchError.TooLong) }
        ensures state { self.new ≡ record self.old {
          calls = raised self.old.calls;
          faults = (if fetch_fails self.old name.now then raised self.old.faults else self.old.faults);
        } }
    {
        let listed = self.plan.next();
        match content(&self.files, name) {
            Some(bytes) if !listed => {
                if bytes.len() > limit {
                    return Err(FetchError::TooLong);
                }
                Vec::from_slice(alloc, bytes).map_err(|_| FetchError::Memory)
            }
            _ => {
                self.plan.raise();
                Err(FetchError::Failed)
            }
        }
    }
}

/// A sink in memory with a fixed room, whose calls fail as it is told: for tests.
///
/// A put fails exactly where its number is listed or no room is left. It takes no memory.
#[derive(Drop)]
pub struct MemSink {
    bytes: Vec<u8>,
    left: usize,
    plan: Plan,
}

impl Model for MemSink {
    ghost Value = { SinkState };

    ghost view = { λ sink. record { bytes = sink.bytes.items; left = sink.left; fails = sink.plan.fails.items; calls = sink.plan.calls; faults = sink.plan.faults } };

    ghost invariant = { λ sink. vec_len sink.bytes + sink.left ≤ vec_capacity sink.bytes };
}

impl MemSink {
    /// Makes an empty sink that takes `room` bytes in all, and takes the memory for them at once. `fails` lists the
    /// numbers of the puts that are to fail, from 1.
    pub fn new(alloc: Global, room: usize, fails: Vec<u32>) -> Result<MemSink, AllocError>
        ensures { IfOk result (λ sink. sink ≡ record { bytes = []; left = room; fails = fails.items; calls = 0; faults = 0 }) }
    {
        Ok(MemSink {
            bytes: Vec::with_capacity(alloc, room)?,
            left: room,
            plan: Plan::new(fails),
        })
    }

    /// What was taken, in order.
    pub fn bytes(&self) -> &[u8]
        ensures { ⟦<MemSink as Sink>⟧.taken self.now ≡ Some result.now }
    {
        &self.bytes
    }
}

impl Sink for MemSink {
    ghost taken = { λ sink. Some sink.bytes };

    ghost faults = { λ sink. sink.faults };

    fn put(&mut self, piece: &[u8]) -> Result<usize, SinkError>
        requires { 0 < length piece.now }

        ensures failed_exactly { IsErrOf result SinkError.Failed ↔ IsTrue (put_fails self.old) }
        ensures no_memory { IfErr result (λ e. e ≡ SinkError.Failed) }
        ensures count { IfOk result (λ n. n ≡ min (length piece.now) self.old.left) }
        ensures some { IfOk result (λ n. 1 ≤ n) }
        ensures taken { IfOk result (λ n. self.new ≡ record self.old {
          bytes = self.old.bytes ++ take n piece.now;
          left = self.old.left - n;
          calls = raised self.old.calls;
        }) }
        ensures refused { IfErr result (λ _. self.new ≡ record self.old {
          calls = raised self.old.calls;
          faults = raised self.old.faults;
        }) }
    {
        let count = piece.len().min(self.left);
        if self.plan.next() || count == 0 {
            self.plan.raise();
            return Err(SinkError::Failed);
        }
        self.bytes.extend_from_slice(&piece[..count]).unwrap();
        self.left -= count;
        Ok(count)
    }
}
