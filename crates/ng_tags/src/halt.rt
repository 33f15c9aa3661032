//! Why a token isn't read.

use ng_ast::Place;

/// Why a token isn't read: nothing is written so, or memory is wanting. The place of Syntax is where the reader stopped.
#[derive(Clone, Copy, Debug, PartialEq, Eq)]
pub enum Halt {
    Syntax(Place),
    Memory,
}
