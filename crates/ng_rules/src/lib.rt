//! The rules of a whole application: whether it is sound, and what it breaks first where it isn't; whether a sound one is quiet, and what of it can't be
//! run yet.
#![tactic(auto)]

mod checker;
mod questions;

pub use checker::{
    CheckError, SoundApp, check, one_least_break, one_list_of_breaks, sound_breaks_nothing,
};
pub use questions::{quiet, unbuilt};
