//! Tests of relation files over a node table.
#![tactic(auto)]

#[cfg(test)]
mod chance;
#[cfg(test)]
mod changed;
#[cfg(test)]
mod entry;
#[cfg(test)]
mod hex;
#[cfg(test)]
mod made;
#[cfg(test)]
mod parts;
#[cfg(test)]
mod read;
#[cfg(test)]
mod several;
#[cfg(test)]
mod several_bad;
#[cfg(test)]
mod several_chance;
#[cfg(test)]
mod several_faults;
#[cfg(test)]
mod several_first;
#[cfg(test)]
mod several_full;
#[cfg(test)]
mod several_made;
#[cfg(test)]
mod several_slow;
#[cfg(test)]
mod slow;
#[cfg(test)]
mod trial;
#[cfg(test)]
mod written;
