//! The tokens of expressions, statements and declarations.
#![tactic(auto)]

mod kinds;
mod lexer;
mod place;
mod signs;

pub use kinds::{Kind, Shape, Sign, Token};
pub use lexer::{ScanError, one_scan, piece, scan, shape};
pub use place::steps;
pub use signs::{begins, same_text};
