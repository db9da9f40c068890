//! Tests of the operators on trees against plain relations, and of the operators over any worker.
#![tactic(auto)]

#[cfg(test)]
mod blocks;
#[cfg(test)]
mod counting;
#[cfg(test)]
mod derived;
#[cfg(test)]
mod making;
#[cfg(test)]
mod memo;
#[cfg(test)]
mod plain;
#[cfg(test)]
mod products;
#[cfg(test)]
mod table;
#[cfg(test)]
mod tests;
