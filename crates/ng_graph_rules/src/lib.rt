//! The rules on cycles: pipes and getters that reach themselves, and environments that stand under themselves.
#![tactic(auto)]

mod decl_rows;
mod getters;
mod judge;

pub use judge::{judge_cycles, one_list_of_cycle_breaks};
