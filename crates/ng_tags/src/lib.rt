//! The tags of a template with their attributes, each value by the form of its name.
#![tactic(auto)]

mod attributes;
mod halt;
mod marks;
mod outlets;
mod tags;
mod values;

pub use halt::Halt;
pub use tags::{read_end, read_start};
