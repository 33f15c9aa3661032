//! The meaning of an application: what its page shows, what an event does, what a query finds and what
//! a run is.
//!
//! It stands in `specs/`, as definitions for the contracts of the crates above. The functions here do
//! nothing: each is a theorem about the definitions, which its contract says.
#![tactic(auto)]

pub mod laws;
