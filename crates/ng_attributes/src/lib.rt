//! The attributes of a template: the forms of their names, their values with the entities decoded, and what plain values,
//! expressions, listeners and names say there.
#![tactic(auto)]

mod at;
mod classes;
mod expressions;
mod names;
mod pieces;
mod spelled;
mod stop;
mod words;

pub use at::At;
pub use classes::{Class, is_blank, starts_lower};
pub use expressions::{expression, listener, one_name};
pub use names::{form_of, without_value, word_of};
pub use pieces::plain;
pub use spelled::{Decoded, decode_value};
pub use stop::Stop;
