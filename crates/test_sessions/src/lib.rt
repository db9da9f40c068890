//! Tests of sessions and runs over a node table: each command with each outcome, files, rows, turns taken by hand, and
//! many concurrent sessions.
#![tactic(auto)]

#[cfg(test)]
mod blocks;
#[cfg(test)]
mod commands;
#[cfg(test)]
mod counter;
#[cfg(test)]
mod expected;
#[cfg(test)]
mod files;
#[cfg(test)]
mod folded;
#[cfg(test)]
mod held;
#[cfg(test)]
mod made;
#[cfg(test)]
mod no_room;
#[cfg(test)]
mod racing;
#[cfg(test)]
mod rows;
#[cfg(test)]
mod several;
#[cfg(test)]
mod thin;
#[cfg(test)]
mod turns;
