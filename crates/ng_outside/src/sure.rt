ghost use Rattle.std.specs.Prelude.{◌≡◌, ℕ, List, [], Some};
ghost use Rattle.ng_outside.specs.Files.{told_surely};

use crate::files::content;
use crate::shelf::{FetchError, Shelf};
use crate::sink::{Sink, SinkError};
use std::alloc::Global;

/// A shelf in memory that never fails. A name that it doesn't hold has empty content.
///
/// A fetch goes over the files from the first on and copies one.
#[derive(Drop)]
pub struct SureShelf {
    files: Vec<(String, Vec<u8>)>,
}

impl SureShelf {
    /// Makes a shelf of pairs of name and bytes. The first pair of a name counts.
    pub fn new(files: Vec<(String, Vec<u8>)>) -> SureShelf
        ensures { (name : List ℕ) → ⟦<SureShelf as Shelf>⟧.told result name ≡ Some (told_surely files.items name) }
    {
        SureShelf { files }
    }
}

impl Shelf for SureShelf {
    ghost told = { λ shelf name. Some (told_surely shelf.files.items name) };

    ghost faults = { λ _ _. 0 };

    ghost read = { λ _. 0 };

    fn fetch(&mut self, alloc: Global, name: &str, limit: usize) -> Result<Vec<u8>, FetchError> {
        let bytes = content(&self.files, name).unwrap_or(&[]);
        if bytes.len() > limit {
            return Err(FetchError::TooLong);
        }
        Vec::from_slice(alloc, bytes).map_err(|_| FetchError::Memory)
    }
}

/// A sink in memory that takes every piece whole. Its only refusal is want of memory.
#[derive(Drop)]
pub struct SureSink {
    bytes: Vec<u8>,
}

impl SureSink {
    /// Makes an empty sink. It takes no memory until the first put.
    pub fn new(alloc: Global) -> SureSink
        ensures { ⟦<SureSink as Sink>⟧.taken result ≡ Some [] }
    {
        SureSink {
            bytes: Vec::new(alloc),
        }
    }

    /// What was taken, in order.
    pub fn bytes(&self) -> &[u8]
        ensures { ⟦<SureSink as Sink>⟧.taken self.now ≡ Some result.now }
    {
        &self.bytes
    }
}

impl Sink for SureSink {
    ghost taken = { λ sink. Some sink.bytes.items };

    ghost faults = { λ _. 0 };

    fn put(&mut self, piece: &[u8]) -> Result<usize, SinkError> {
        match self.bytes.extend_from_slice(piece) {
            Ok(()) => Ok(piece.len()),
            Err(_) => Err(SinkError::Memory),
        }
    }
}
