//! The reader of clicks: lists of events in which each is a click on the first element of a tag.
#![tactic(auto)]

mod clicks;

pub use clicks::{ClickError, read_clicks};
