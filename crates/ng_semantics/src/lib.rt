//! The meaning of an application: what its page shows and what an event does. Definitions alone, for the contracts of
//! the crates above.
#![tactic(auto)]
