//! Tests of the readers of templates and files: worked rows of what is read.
#![tactic(auto)]

#[cfg(test)]
mod files;
#[cfg(test)]
mod nodes;
