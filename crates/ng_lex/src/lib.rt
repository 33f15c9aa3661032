//! The tokens of templates: where each one stands, and what it says.
#![tactic(auto)]

mod attributes;
mod entities;
mod heads;
mod kinds;
mod letters;
mod markup;
mod quotes;
mod spans;
mod words;

pub use attributes::NameForm;
pub use entities::{decode, one_decoding};
pub use kinds::{Token, TokenKind};
pub use letters::PlacedLetter;
pub use markup::{Letter, Markup, Part, Shape};
pub use quotes::Quoting;
pub use spans::{span, tokens};
