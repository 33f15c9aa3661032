//! Reads whole applications: from bytes to declarations with their templates, exactly by the grammar and within the limits.
#![tactic(auto)]

mod app;
mod fill;

pub use app::{one_app, read_app, templates_keep_the_limits};
