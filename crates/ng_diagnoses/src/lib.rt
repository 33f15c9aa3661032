//! What a person reads on standard error where a call of `ivy` gives no answer to its words: what is wrong with the words, why a file
//! couldn't be fetched, or a diagnosis of a refused application with the line of the file.
#![tactic(auto)]

mod excerpt;
mod fetching;
mod names;
mod refused;
mod report;
mod rules;
mod shelf;
mod sink;
mod spelling;
mod words;

pub use fetching::why_not_fetched;
pub use refused::{Kind, Refused, Spot};
pub use report::{Source, diagnosis};
pub use shelf::NotedShelf;
pub use sink::NotedSink;
pub use spelling::nearest;
pub use words::wrong_words;
