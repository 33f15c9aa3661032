//! Why parts are no nodes.

use ng_ast::Place;
use std::alloc::{AllocError, AllocFailed};

/// Why parts are no nodes: no template goes on so, a limit is passed, or memory is wanting. The place is that of the part at which
/// this shows; for an element or a block without an end it is the place of its first byte.
#[derive(Clone, Copy, Debug)]
pub enum Halt {
    Syntax(Place),
    Limit(Place),
    Memory,
}

impl From<AllocError> for Halt {
    ghost use Rattle.std.specs.Prelude.{◌≡◌};
    ghost use Rattle.ng_nodes.specs.declared.halt.Halt.TheVariants.{Memory};

    ghost from_gives = { λ _ e. e ≡ Memory };

    fn from(_: AllocError) -> Self {
        Halt::Memory
    }
}

impl<T: Drop> From<AllocFailed<T>> for Halt {
    ghost use Rattle.std.specs.Prelude.{◌≡◌};
    ghost use Rattle.ng_nodes.specs.declared.halt.Halt.TheVariants.{Memory};

    ghost from_gives = { λ _ e. e ≡ Memory };

    fn from(_: AllocFailed<T>) -> Self {
        Halt::Memory
    }
}
