//! Expressions that do not fit into a table of lines.
mod by_chance;
mod long;
