//! The program `ivy`: reads an application and says whether it keeps its rules, or, with a list of events, prints the page after every event.
#![tactic(auto)]

mod inputs;
mod lines;
mod put;
mod refusal;
mod session;
mod status;
mod top;
mod words;

pub use inputs::Stop;
pub use refusal::Refusal;
pub use status::Status;
pub use top::ivy;
