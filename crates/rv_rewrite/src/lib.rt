//! Rewrites the calm parts of expressions by ten laws of relation algebra, step by step.
#![tactic(auto)]

mod apart;
mod apply;
mod calm_parts;
mod check;
mod copy;
mod least;
mod made;
mod make;
mod repeats;
mod results;
mod rewriting;
mod rules;
mod same;
mod settle;
mod sides;
mod step;
mod view;
mod walk;

pub use check::check_step;
pub use rewriting::{calm, rewrite};
pub use step::{Rewritten, Step};
