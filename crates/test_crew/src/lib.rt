//! Tests of a crew against plain relations, through the traits that both implement, and of its quads.
#![tactic(auto)]

#[cfg(test)]
mod calling;
#[cfg(test)]
mod closures;
#[cfg(test)]
mod forks;
#[cfg(test)]
mod meets;
#[cfg(test)]
mod tests;
#[cfg(test)]
mod twins;
