//! Calls of the program and of what it stands on: words, files and output, over the forms in memory and those of the machine.
#![tactic(auto)]

#[cfg(test)]
mod cli;
#[cfg(test)]
mod shelves;
#[cfg(test)]
mod sinks;
#[cfg(test)]
mod words;
