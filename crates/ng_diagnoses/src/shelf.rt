//! A shelf that remembers what was fetched last.

ghost use Rattle.std.specs.Prelude.{◌≡◌, ℕ, List};

use ng_outside::{FetchError, Shelf};
use std::alloc::Global;

/// A shelf over another one that remembers the name that was asked for last, and the content, if it came.
///
/// It gives what the other one gives. Where memory is wanting it remembers nothing.
#[derive(Drop)]
pub struct NotedShelf<H: Shelf + Drop> {
    inner: H,
    name: Option<String>,
    bytes: Option<Vec<u8>>,
}

impl<H: Shelf + Drop> NotedShelf<H> {
    /// Makes a shelf over another one.
    pub fn new(inner: H) -> NotedShelf<H>
        ensures told { (name : List ℕ) → ⟦<NotedShelf<H> as Shelf>⟧.told result name ≡ H.told inner name }
        ensures faults { (name : List ℕ) → ⟦<NotedShelf<H> as Shelf>⟧.faults result name ≡ H.faults inner name }
        ensures read { ⟦<NotedShelf<H> as Shelf>⟧.read result ≡ H.read inner }
    {
        NotedShelf {
            inner,
            name: None,
            bytes: None,
        }
    }

    /// The name that was asked for last, or nothing where memory was wanting.
    ///
    /// It has no clause, since what is remembered serves texts for people alone; tests have those.
    pub fn name(&self) -> Option<&str> {
        match &self.name {
            Some(name) => Some(name.as_str()),
            None => None,
        }
    }

    /// The content of the file that was asked for last, or nothing where it didn't come or memory was wanting.
    ///
    /// It has no clause, since what is remembered serves texts for people alone; tests have those.
    pub fn bytes(&self) -> Option<&[u8]> {
        match &self.bytes {
            Some(bytes) => Some(bytes.as_slice()),
            None => None,
        }
    }

    // Remembers what a fetch gave.
    fn note(&mut self, alloc: Global, name: &str, fetched: &Result<Vec<u8>, FetchError>)
        ensures { self.new.inner ≡ self.old.inner }
    {
        self.name = String::from_str(alloc, name).ok();
        self.bytes = match fetched {
            Ok(bytes) => Vec::from_slice(alloc, bytes).ok(),
            Err(_) => None,
        };
    }
}

impl<H: Shelf + Drop> Shelf for NotedShelf<H> {
    ghost told = { λ shelf. H.told shelf.inner };

    ghost faults = { λ shelf. H.faults shelf.inner };

    ghost read = { λ shelf. H.read shelf.inner };

    fn fetch(&mut self, alloc: Global, name: &str, limit: usize) -> Result<Vec<u8>, FetchError> {
        let fetched = self.inner.fetch(alloc, name, limit);
        self.note(alloc, name, &fetched);
        fetched
    }
}
