//! What the evaluator answers, compared with the rules.
mod constructs;
mod defined;
mod full_tables;
mod loops;
mod power_sets;
mod refusals;
mod rows;
mod thin;
mod thousand;
