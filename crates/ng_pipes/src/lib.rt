//! The pipes that every template has: `uppercase`, `lowercase`, `slice`, `json` and `length`.
#![tactic(auto)]

mod builtin;

pub use builtin::{PipeId, apply};
