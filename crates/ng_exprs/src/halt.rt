//! Why a reader of tokens stops.

use ng_ast::Place;
use std::alloc::{AllocError, AllocFailed};

/// Why a reader of tokens stops: no phrase goes on so, a limit is passed, or memory is wanting.
#[derive(Clone, Copy, Debug)]
pub enum Halt {
    Syntax(Place),
    Limit(Place),
    Memory,
}

impl From<AllocError> for Halt {
    ghost use Rattle.std.specs.Prelude.{◌≡◌};
    ghost use Rattle.ng_exprs.specs.declared.halt.Halt.TheVariants.{Memory};

    ghost from_gives = { λ _ e. e ≡ Memory };

    fn from(_: AllocError) -> Self {
        Halt::Memory
    }
}

impl<T: Drop> From<AllocFailed<T>> for Halt {
    ghost use Rattle.std.specs.Prelude.{◌≡◌};
    ghost use Rattle.ng_exprs.specs.declared.halt.Halt.TheVariants.{Memory};

    ghost from_gives = { λ _ e. e ≡ Memory };

    fn from(_: AllocFailed<T>) -> Self {
        Halt::Memory
    }
}
