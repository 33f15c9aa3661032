//! What the words of a call ask for, read with `clap`.
//!
//! The words are those of one command: a word that says what to do, two that name files, and four flags. Where `clap` takes them,
//! the table of orders decides: `run` has two files and any flags; `check` and `compile` have one file and no flag.
#![tactic(auto)]

mod command;
mod given;
mod order;
mod reading;

pub use order::{Flags, Order};
pub use reading::{Refused, read_words};
