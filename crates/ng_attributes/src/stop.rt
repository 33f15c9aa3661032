//! Why an attribute isn't read.

ghost use Rattle.ng_attributes.specs.Answers.{Stops};

use ng_ast::{Place, ReadError};
use std::alloc::{AllocError, AllocFailed};

/// Why an attribute isn't read: nothing is written so, an expression passes a limit, or memory is wanting. The place of
/// Syntax is where the reader stopped.
#[derive(Clone, Copy, Debug)]
pub enum Stop {
    Syntax(Place),
    Limit,
    Memory,
}

/// Why an expression or a listener isn't read, whose first byte stands at the place.
pub(crate) fn stop_of(error: ReadError, place: Place) -> Stop
    ensures { Stops error result }
{
    match error {
        ReadError::Syntax(refusal) => Stop::Syntax(refusal.place),
        ReadError::Limit(_) => Stop::Limit,
        ReadError::Memory => Stop::Memory,
        ReadError::Utf8 => Stop::Syntax(place),
    }
}

impl From<AllocError> for Stop {
    ghost use Rattle.std.specs.Prelude.{◌≡◌};
    ghost use Rattle.ng_attributes.specs.declared.stop.Stop.TheVariants.{Memory};

    ghost from_gives = { λ _ e. e ≡ Memory };

    fn from(_: AllocError) -> Self {
        Stop::Memory
    }
}

impl<T: Drop> From<AllocFailed<T>> for Stop {
    ghost use Rattle.std.specs.Prelude.{◌≡◌};
    ghost use Rattle.ng_attributes.specs.declared.stop.Stop.TheVariants.{Memory};

    ghost from_gives = { λ _ e. e ≡ Memory };

    fn from(_: AllocFailed<T>) -> Self {
        Stop::Memory
    }
}
