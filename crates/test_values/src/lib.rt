//! Worked rows of values, pipes, syntax trees, paths, tokens and graphs, and calls that succeed where memory is ample.
#![tactic(auto)]

#[cfg(test)]
mod forms;
#[cfg(test)]
mod graphs;
#[cfg(test)]
mod limits;
#[cfg(test)]
mod made;
#[cfg(test)]
mod methods;
#[cfg(test)]
mod numbers;
#[cfg(test)]
mod paths;
#[cfg(test)]
mod pipes;
#[cfg(test)]
mod tokens;
#[cfg(test)]
mod trees;
