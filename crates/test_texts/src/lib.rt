//! Tests of the texts that the program writes, compared with the texts that its formats prescribe.
#![tactic(auto)]

#[cfg(test)]
mod history;
#[cfg(test)]
mod made;
#[cfg(test)]
mod marked;
#[cfg(test)]
mod refusals;
#[cfg(test)]
mod rows;
#[cfg(test)]
mod shown;
