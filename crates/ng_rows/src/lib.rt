//! What some applications show, computed from the definitions of `ng_meaning`.
//!
//! Each function is a theorem: it does nothing, and its contract says which lines a run writes. The applications stand in `specs/`, as
//! their declaration files and as syntax trees.
#![tactic(auto)]

pub mod blocks;
pub mod bound;
pub mod bubbling;
pub mod checking;
pub mod content;
pub mod counter;
pub mod faults;
pub mod generating;
pub mod holding;
pub mod nodes;
pub mod outlets;
pub mod providers;
pub mod queries;
