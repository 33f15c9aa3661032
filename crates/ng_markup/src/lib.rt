//! The parts of a template: what each of its tokens says.
#![tactic(auto)]

mod laws;
mod part;

pub use laws::{heavy_parts_have_their_shape, one_part};
pub use part::read_part;
