//! Quiet applications: the rules that are to let components whose check is left out show what a check would show.
#![tactic(auto)]

mod fields;
mod positions;
mod quiet;
mod reached;
mod skipped;
mod survey;

pub use quiet::is_quiet;
