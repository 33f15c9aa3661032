//! The rules on declarations, members and providers, and those on names at all names of an application.
#![tactic(auto)]

mod decl_rules;
mod member_rules;

pub use decl_rules::judge_declarations;
