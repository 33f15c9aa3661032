//! The components that the elements of templates match, looked up by what their selectors want.
#![tactic(auto)]

mod components;
mod hosts;
mod index;
mod marks;
mod search;
mod words;

pub use components::components_of;
pub use hosts::{change_of, host_positions, hosts_of, is_reserved};
pub use index::{SelectorIndex, selector_index};
