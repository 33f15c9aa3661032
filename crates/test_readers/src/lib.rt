//! Tests of the readers: calls that succeed where there is memory enough, and worked rows of what they answer.
#![tactic(auto)]

#[cfg(test)]
mod exprs;
#[cfg(test)]
mod lex;
#[cfg(test)]
mod phrases;
#[cfg(test)]
mod selectors;
