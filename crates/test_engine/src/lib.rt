//! Tests of an engine over a node table, and of images, lines and values over it, against slow answers.
#![tactic(auto)]

#[cfg(test)]
mod cells;
#[cfg(test)]
mod images;
#[cfg(test)]
mod lists;
#[cfg(test)]
mod made;
#[cfg(test)]
mod operations;
#[cfg(test)]
mod slices;
#[cfg(test)]
mod trial;
#[cfg(test)]
mod values;
