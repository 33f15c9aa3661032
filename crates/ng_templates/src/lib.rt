//! Reads templates, exactly by the grammar, within the limits.
#![tactic(auto)]

mod nodes;
mod read;

pub use read::{one_template, read_template};
