//! Which forms of an application can't be run yet.
#![tactic(auto)]

mod application;
mod least;
mod listener;
mod tags;
mod template;

pub use application::unbuilt;
