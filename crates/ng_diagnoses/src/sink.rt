//! A sink that remembers the beginning of what was put.

ghost use Rattle.std.specs.Prelude.{◌≡◌};

use ng_outside::{Sink, SinkError};
use std::alloc::Global;

// How many bytes are remembered: more than any line that refuses a file and that a person would read.
const MOST: usize = 4096;

/// A sink over another one that remembers the beginning of what it took.
#[derive(Drop)]
pub struct NotedSink<K: Sink + Drop> {
    inner: K,
    front: Vec<u8>,
}

impl<K: Sink + Drop> NotedSink<K> {
    /// Makes a sink over another one.
    pub fn new(alloc: Global, inner: K) -> NotedSink<K>
        ensures taken { ⟦<NotedSink<K> as Sink>⟧.taken result ≡ K.taken inner }
        ensures faults { ⟦<NotedSink<K> as Sink>⟧.faults result ≡ K.faults inner }
    {
        NotedSink {
            inner,
            front: Vec::new(alloc),
        }
    }

    /// The beginning of what was taken: 4,096 bytes at most, fewer where memory was wanting.
    ///
    /// It has no clause, since what is remembered serves texts for people alone; tests have those.
    pub fn front(&self) -> &[u8] {
        &self.front
    }

    // Remembers what was taken, as far as there is room. Where memory is wanting it remembers less.
    fn note(&mut self, taken: &[u8])
        ensures { self.new.inner ≡ self.old.inner }
    {
        let room = MOST.saturating_sub(self.front.len()).min(taken.len());
        let _ = self.front.extend_from_slice(&taken[..room]);
    }
}

impl<K: Sink + Drop> Sink for NotedSink<K> {
    ghost taken = { λ sink. K.taken sink.inner };

    ghost faults = { λ sink. K.faults sink.inner };

    fn put(&mut self, piece: &[u8]) -> Result<usize, SinkError> {
        let count = self.inner.put(piece)?;
        self.note(&piece[..count]);
        Ok(count)
    }
}
