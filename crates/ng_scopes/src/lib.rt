//! The names that stand in an application: what is done with each, and what it means where it stands.
//!
//! Names are looked up from the innermost: parameters or `$event`, then the names of the view (the variables of its head, and its
//! `@let`s and references in the order of the template), those of the views around it, and the members of the component.
#![tactic(auto)]

mod attributes;
mod declarations;
mod expressions;
mod names;
mod scope;
mod statements;
mod templates;
mod usage;
mod views;

pub use declarations::{decl_usages, member_names, member_usages, sort_of};
pub use names::{Known, Meaning, Sort};
pub use scope::{Entry, table_of};
pub use usage::{Act, Part, Spot, Usage};
pub use views::{branch_names, inner_names, row_names, view_names};
