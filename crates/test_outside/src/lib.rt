//! Tests of what stands outside the language: shelves and sinks, the words of the command line, generated scripts; and
//! of what atomic blocks read.
#![tactic(auto)]

#[cfg(test)]
mod generated;
#[cfg(test)]
mod reads;
#[cfg(test)]
mod shelves;
#[cfg(test)]
mod words;
