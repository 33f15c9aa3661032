//! Why a part isn't read.

ghost use Rattle.ng_heads.specs.Answers.{Turns};

use ng_ast::Place;
use ng_lex::{Markup, Shape};
use std::alloc::AllocError;

/// Why a part isn't read: nothing is written so, or memory is wanting. The place is where the reader stopped.
#[derive(Clone, Copy, Debug)]
pub enum Halt {
    Syntax(Place),
    Memory,
}

/// Why what stands in a part isn't read: nothing is written so, an expression passes a limit, or memory is wanting.
#[derive(Clone, Copy)]
pub(crate) enum Stop {
    Syntax(Place),
    Limit,
    Memory,
}

impl Stop {
    /// What a part of this shape then is.
    pub fn turned(self, shape: Shape) -> Result<Markup, Halt>
        ensures { Turns shape self result }
    {
        match self {
            Stop::Syntax(place) => Err(Halt::Syntax(place)),
            Stop::Limit => Ok(Markup::Heavy(shape)),
            Stop::Memory => Err(Halt::Memory),
        }
    }
}

impl From<AllocError> for Stop {
    ghost use Rattle.std.specs.Prelude.{◌≡◌};
    ghost use Rattle.ng_heads.specs.declared.halt.Stop.TheVariants.{Memory};

    ghost from_gives = { λ _ e. e ≡ Memory };

    fn from(_: AllocError) -> Self {
        Stop::Memory
    }
}
