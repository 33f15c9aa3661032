//! Why reading stops.

use ng_ast::{Place, ReadError};
use std::alloc::{AllocError, AllocFailed};

/// What is read by another reader.
#[derive(Clone, Copy)]
pub enum Part {
    Expression,
    Body,
}

/// No reading, a limit that is passed, want of memory, or the refusal of another reader.
#[derive(Drop)]
pub enum Halt {
    Syntax(Place),
    Limit(Place),
    Memory,
    Refused(Part, ReadError),
}

impl From<AllocError> for Halt {
    ghost use Rattle.std.specs.Prelude.{◌≡◌};
    ghost use Rattle.ng_declare.specs.declared.halt.Halt.TheVariants.{Memory};

    ghost from_gives = { λ _ e. e ≡ Memory };

    fn from(_: AllocError) -> Self {
        Halt::Memory
    }
}

impl<T: Drop> From<AllocFailed<T>> for Halt {
    ghost use Rattle.std.specs.Prelude.{◌≡◌};
    ghost use Rattle.ng_declare.specs.declared.halt.Halt.TheVariants.{Memory};

    ghost from_gives = { λ _ e. e ≡ Memory };

    fn from(_: AllocFailed<T>) -> Self {
        Halt::Memory
    }
}
