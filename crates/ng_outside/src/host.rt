ghost use Rattle.std.specs.Prelude.{◌≡◌, ◌+◌, ◌<◌, ◌≤◌, ℕ, List, length, vec_len, IfOk, IfErr, IfSome, MatchResult, IsErrOf, OnErr, None};
ghost use Rattle.std.specs.Io.KnownBytes.{ReadConsumes};
ghost use Rattle.ng_outside.specs.Causes.{Rose, RoseBy};

use crate::shelf::{FetchError, Shelf};
use crate::sink::{Sink, SinkError};
use std::alloc::Global;
use std::fs;
use std::io::Read;
use std::rt::Files;

// How many bytes one read of a file asks for.
const CHUNK: usize = 8192;

/// The files of the machine. It says nothing of their content: what a file holds lies outside of any contract.
///
/// A file that cannot be opened, a directory, and a read that the system refuses are failures. One count of failures serves
/// all names. A fetch reads at most one byte more than its limit.
#[derive(Drop)]
pub struct HostShelf<'a, R: Files> {
    rt: &'a R,
    faults: u64,
    read: u64,
}

impl<'a, R: Files> HostShelf<'a, R> {
    /// Makes a shelf over the files that this runtime reaches. A name is a path.
    pub fn new(rt: &'a R) -> HostShelf<'a, R>
        ensures faults { (name : List ℕ) → ⟦<HostShelf<'a, R> as Shelf>⟧.faults result name ≡ 0 }
        ensures read { ⟦<HostShelf<'a, R> as Shelf>⟧.read result ≡ 0 }
    {
        HostShelf {
            rt,
            faults: 0,
            read: 0,
        }
    }

    /// Reads a file that is open to its end, or until it has given one byte more than the limit. Each turn takes at least one byte. A read
    /// that fails is a failure of the shelf.
    pub fn read_within<F: Read>(
        &mut self,
        alloc: Global,
        file: &mut F,
        limit: usize,
    ) -> Result<Vec<u8>, FetchError>
        ensures content { IfOk result (λ bytes. IfSome (F.remaining file.old) (λ content. bytes.items ≡ content)) }
        ensures ok_within { IfOk result (λ bytes. vec_len bytes ≤ limit) }
        ensures failed { IsErrOf result FetchError.Failed → Rose self.old.faults self.new.faults }
        ensures too_long { IsErrOf result FetchError.TooLong →
            IfSome (F.remaining file.old) (λ content. limit < length content) }
        ensures read_past { IsErrOf result FetchError.TooLong → RoseBy (limit + 1) self.old.read self.new.read }
        ensures read_grows { self.old.read ≤ self.new.read }
        ensures read_within { self.new.read ≤ self.old.read + (limit + 1) }
        ensures faults_grow { self.old.faults ≤ self.new.faults }
    {
        let mut bytes = Vec::new(alloc);
        let mut chunk = [0u8; CHUNK];
        loop {
            let room = limit - bytes.len();
            let wanted = room.saturating_add(1).min(CHUNK);
            let n = self.read_some(file, &mut chunk[..wanted])?;
            if n == 0 {
                return Ok(bytes);
            }
            if n > room {
                return Err(FetchError::TooLong);
            }
            bytes
                .extend_from_slice(&chunk[..n])
                .map_err(|_| FetchError::Memory)?;
        }
    }

    // Reads from a file into the buffer, and counts what came and what failed.
    fn read_some<F: Read>(&mut self, file: &mut F, buf: &mut [u8]) -> Result<usize, FetchError>
        ensures within { IfOk result (λ n. n ≤ length buf.new) }
        ensures bytes { ReadConsumes (F.remaining file.old) (F.remaining file.new) result buf.new }
        ensures counted { IfOk result (λ n. RoseBy n self.old.read self.new.read) }
        ensures read_grows { self.old.read ≤ self.new.read }
        ensures no_more { MatchResult result (λ n. self.new.read ≤ self.old.read + n) (λ _. self.new.read ≡ self.old.read) }
        ensures failed { IfErr result (λ e. e ≡ FetchError.Failed) }
        ensures raised { OnErr result (Rose self.old.faults self.new.faults) }
        ensures faults_grow { self.old.faults ≤ self.new.faults }
    {
        match file.read(buf) {
            Ok(n) => {
                self.read = self.read.saturating_add(n as u64);
                Ok(n)
            }
            Err(_) => Err(self.failed()),
        }
    }

    // Counts a failure.
    fn failed(&mut self) -> FetchError
        ensures value { result ≡ FetchError.Failed }
        ensures raised { Rose self.old.faults self.new.faults }
        ensures faults_grow { self.old.faults ≤ self.new.faults }
        ensures read { self.new.read ≡ self.old.read }
    {
        self.faults = self.faults.saturating_add(1);
        FetchError::Failed
    }
}

impl<R: Files> Shelf for HostShelf<'_, R> {
    ghost told = { λ _ _. None };

    ghost faults = { λ shelf _. shelf.faults };

    ghost read = { λ shelf. shelf.read };

    fn fetch(&mut self, alloc: Global, name: &str, limit: usize) -> Result<Vec<u8>, FetchError> {
        let Ok(mut file) = fs::open(self.rt, name) else {
            return Err(self.failed());
        };
        self.read_within(alloc, &mut file, limit)
    }
}

/// The standard output of the program. It says nothing of what was taken: what a terminal shows lies outside of any contract.
///
/// Each put is one write of the system, without a buffer, so what it takes is written. A write that the system refuses, or of
/// which it takes nothing, is a failure.
#[derive(Drop)]
pub struct HostSink<'a, R: Print> {
    rt: &'a R,
    faults: u64,
}

impl<'a, R: Print> HostSink<'a, R> {
    /// Makes a sink over this runtime's standard output.
    pub fn new(rt: &'a R) -> HostSink<'a, R>
        ensures { ⟦<HostSink<'a, R> as Sink>⟧.faults result ≡ 0 }
    {
        HostSink { rt, faults: 0 }
    }
}

impl<R: Print> Sink for HostSink<'_, R> {
    ghost taken = { λ _. None };

    ghost faults = { λ sink. sink.faults };

    fn put(&mut self, piece: &[u8]) -> Result<usize, SinkError> {
        match self.rt.write_some(piece) {
            Ok(n) if n > 0 => Ok(n),
            _ => {
                self.faults = self.faults.saturating_add(1);
                Err(SinkError::Failed)
            }
        }
    }
}
