//! The result of rewriting.
use lang_model::syntax::Expr;

/// One step: the number of its rule, and the node before and after it, on the heap.
#[derive(Drop)]
pub struct Step {
    pub rule: u32,
    pub before: Expr,
    pub after: Expr,
}

/// An expression to which no rule applies, and the steps that led to it, in order. On the heap.
#[derive(Drop)]
pub struct Rewritten {
    pub expr: Expr,
    pub steps: Vec<Step>,
}
