//! Tests of operators over a crew on a node table, against slow answers on lists of pairs.
#![tactic(auto)]

#[cfg(test)]
mod choice;
#[cfg(test)]
mod domains;
#[cfg(test)]
mod grids;
#[cfg(test)]
mod joins;
#[cfg(test)]
mod made;
#[cfg(test)]
mod order;
#[cfg(test)]
mod tables;
