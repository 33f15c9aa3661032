ghost use Rattle.std.specs.Prelude.{◌≡◌, ◌<◌, ◌≤◌, ℕ, List, Option, length, take, IfOk, OnErr, IsErrOf};
ghost use Rattle.ng_outside.specs.Causes.{Rose};
ghost use Rattle.ng_outside.specs.Taken.{appended};

use thiserror::Error;

/// Why a sink takes nothing of a piece.
#[derive(Clone, Copy, Debug, PartialEq, Eq, Drop, Error)]
pub enum SinkError {
    /// The piece could not be written.
    #[error("the output could not be written")]
    Failed,
    /// Memory ran out.
    #[error("out of memory")]
    Memory,
}

/// Where output is put.
///
/// `taken` is what a sink has taken so far, where it says so, and `faults` counts its failures.
/// A count that stands at 2^64 - 1 stays there, and is taken to have risen.
pub trait Sink {
    ghost taken: { Self → Option (List ℕ) };

    ghost faults: { Self → ℕ };

    /// Takes the first bytes of a piece, and gives how many: at least one. After an error nothing was taken.
    ///
    /// `Failed` comes only where the count of failures rose in this call.
    fn put(&mut self, piece: &[u8]) -> Result<usize, SinkError>
        requires { 0 < length piece.now }

        ensures some { IfOk result (λ n. 1 ≤ n) }
        ensures within { IfOk result (λ n. n ≤ length piece.now) }
        ensures appends { IfOk result (λ n. taken self.new ≡ appended (taken self.old) (take n piece.now)) }
        ensures nothing { OnErr result (taken self.new ≡ taken self.old) }

        ensures faults_grow { faults self.old ≤ faults self.new }
        ensures failed { IsErrOf result SinkError.Failed → Rose (faults self.old) (faults self.new) };
}
