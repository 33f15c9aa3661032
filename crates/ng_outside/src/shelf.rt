ghost use Rattle.std.specs.Prelude.{◌≡◌, ◌+◌, ◌<◌, ◌≤◌, ℕ, List, Option, length, vec_len, IfOk, IfSome, IfNone, IsErrOf};
ghost use Rattle.ng_outside.specs.Causes.{Rose, RoseBy};

use std::alloc::Global;
use thiserror::Error;

/// Why a fetch gives no file.
#[derive(Clone, Copy, Debug, PartialEq, Eq, Drop, Error)]
pub enum FetchError {
    /// The file could not be opened or read. A missing file is a failure.
    #[error("the file could not be read")]
    Failed,
    /// The file has more bytes than the limit.
    #[error("the file is longer than the limit")]
    TooLong,
    /// Memory ran out.
    #[error("out of memory")]
    Memory,
}

/// Where files are fetched from.
///
/// `told` is the content that a shelf is known to hold under a name, given by the bytes of the name, where it says so.
/// `faults` counts the failures of each name, and `read` the bytes that were read.
/// A count that stands at 2^64 - 1 stays there, and is taken to have risen.
pub trait Shelf {
    ghost told: { Self → List ℕ → Option (List ℕ) };

    ghost faults: { Self → List ℕ → ℕ };

    ghost read: { Self → ℕ };

    /// Gives the bytes of the file of this name, if they are at most `limit`.
    ///
    /// `Failed` comes only where the count of this name's failures rose in this call. `TooLong` comes where the told content
    /// is longer than the limit, and of a file that is not told only where more bytes than the limit were read. Nothing is
    /// promised of the counts of other names but that they don't fall.
    fn fetch(&mut self, alloc: Global, name: &str, limit: usize) -> Result<Vec<u8>, FetchError>
        // What comes is what was told, and never more than the limit.
        ensures content { IfOk result (λ bytes. IfSome (told self.old name.now) (λ content. bytes.items ≡ content)) }
        ensures ok_within { IfOk result (λ bytes. vec_len bytes ≤ limit) }

        // No call changes what is told, and no count falls.
        ensures same_told { (other : List ℕ) → told self.new other ≡ told self.old other }
        ensures faults_grow { (other : List ℕ) → faults self.old other ≤ faults self.new other }
        ensures read_grows { read self.old ≤ read self.new }

        ensures failed { IsErrOf result FetchError.Failed → Rose (faults self.old name.now) (faults self.new name.now) }

        // Where no failure came, a told file is too long exactly where its content is longer than the limit, whether or not
        // there is memory.
        ensures too_long_told { IsErrOf result FetchError.TooLong →
            IfSome (told self.old name.now) (λ content. limit < length content) }
        ensures too_long_always { IfSome (told self.old name.now) (λ content. limit < length content →
            ¬ Rose (faults self.old name.now) (faults self.new name.now) → IsErrOf result FetchError.TooLong) }

        // Of a file that is not told, more than the limit was read.
        ensures too_long_untold { IsErrOf result FetchError.TooLong →
            IfNone (told self.old name.now) (RoseBy (limit + 1) (read self.old) (read self.new)) };
}
