//! An engine for applications of the first form: one component whose fields are whole numbers, a template of elements
//! and texts, and clicks.
#![tactic(auto)]

mod click;
mod engine;
mod fields;
mod page;

pub use engine::{Delivered, FlatEngine};
