//! The parts of an application as flat lists: names with their places, declared names, and the nodes of a template.
#![tactic(auto)]

mod declared;
mod nodes;
mod site;

pub use declared::{Declared, Kind, index_of, one_more};
pub use nodes::{nodes_of, repeated_nodes};
pub use site::{Site, push_if, push_repeats, push_site};
