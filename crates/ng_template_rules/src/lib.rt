//! The rules on templates: names that stand twice in a view or on an element, the components that elements match, their inputs and
//! outputs, slots, the attributes that `ng-content`, `ng-container` and `ng-template` may have, and the heads of blocks.
#![tactic(auto)]

mod allowed;
mod elements;
mod hosts;
mod nodes;
mod slots;
mod tables;
mod templates;

pub use templates::judge_templates;
