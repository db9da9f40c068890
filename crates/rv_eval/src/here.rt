//! What the walk of the evaluator shares: the surroundings of an expression, and the names that it sees.
use lang_model::syntax::{Decl, Expr, Link, Name, Place, Stmt};
use rel_slices::Value;
use rv_types::Checked;
use std::alloc::Global;

/// The surroundings of an expression: the allocator, the script, how many definitions may still nest from here, and the
/// declarations of its program. 32 bytes.
#[derive(Clone, Copy)]
pub struct Around<'a> {
    pub alloc: Global,
    pub checked: &'a Checked,
    pub rank: u32,
    pub decls: &'a [Decl],
}

/// Where an expression is evaluated: its surroundings, and the names with their values. 48 bytes.
#[derive(Clone, Copy)]
pub struct Here<'a> {
    pub around: Around<'a>,
    pub names: &'a [(Name, Value)],
}

/// The definition that is called, and the place of the call. 16 bytes.
#[derive(Clone, Copy)]
pub struct Called<'a> {
    pub at: Place,
    pub name: &'a Name,
}

/// A WHILE: its place, its test and its body. 32 bytes.
#[derive(Clone, Copy)]
pub struct Loop<'a> {
    pub at: Place,
    pub test: &'a Expr,
    pub body: &'a [Stmt],
}

/// The start of a chain `R^...^ * S ...`: the operand that is transposed, how many times, the composition, and the
/// links that follow. 40 bytes.
#[derive(Clone, Copy)]
pub struct Start<'a> {
    pub of: &'a Expr,
    pub times: u32,
    pub link: &'a Link,
    pub more: &'a [Link],
}
