//! The least of the rules that an application breaks, and the rules on names.
#![tactic(auto)]

mod least;
mod name_rules;

pub use least::{judge_repeats, offer, offer_all, offer_word};
pub use name_rules::{is_input, is_output, judge_usage};
