//! Reads declaration files: from bytes to the declarations in them, exactly by the grammar and within the limits. Templates are left as texts.
#![tactic(auto)]

mod constants;
mod cursor;
mod declarations;
mod ends;
mod entries;
mod file;
mod halt;
mod limits;
mod members;
mod names;
mod parts;
mod providers;
mod weights;
mod words;

pub use entries::{Entry, Outline, Source};
pub use file::{one_file, read_file};
