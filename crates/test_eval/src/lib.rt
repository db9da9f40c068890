//! Tests of the evaluator over a node table: compared with a slow evaluator on lists of pairs, and each of its
//! refusals.
#![tactic(auto)]

#[cfg(test)]
mod answer;
#[cfg(test)]
mod formulas;
#[cfg(test)]
mod listed;
#[cfg(test)]
mod made;
#[cfg(test)]
mod named;
#[cfg(test)]
mod operators;
#[cfg(test)]
mod scope;
#[cfg(test)]
mod scripts;
#[cfg(test)]
mod slow;
#[cfg(test)]
mod subsets;
#[cfg(test)]
mod table;
#[cfg(test)]
mod tests;
#[cfg(test)]
mod texts;
