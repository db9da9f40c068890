//! The result of rewriting an expression, as a line of text.
use crate::texts::{are_one, places_of, script_of, text_of, value_of};
use lang_model::syntax::Expr;
use rv_rewrite::{Step, calm, check_step, rewrite};
use std::alloc::Global;
use std::test::Fail;

/// Whether a step is valid by its own rule, and by no other.
pub fn is_of_one_rule(step: Step) -> bool {
    let mut step = step;
    let own = step.rule;
    'rules: for rule in 0..12 {
        step.rule = rule;
        if check_step(&step) != (rule == own) {
            return false;
        }
    }
    true
}

/// Appends a step: its rule, the node before and after it, and the places of the latter.
fn push_step(alloc: Global, out: &mut String, step: &Step) -> Result<(), Fail> {
    let before = text_of(alloc, &step.before)?;
    let after = text_of(alloc, &step.after)?;
    let places = places_of(alloc, &step.after)?;
    let rule = step.rule;
    let text = format!(in alloc; "{rule}: {before} -> {after} @{places}; ")?;
    out.push_str(text.as_str())?;
    Ok(())
}

/// The result of rewriting an expression: each step, and the calm tree after `=`.
fn answer_of(alloc: Global, expr: &Expr) -> Result<String, Fail> {
    let mut out = String::new(alloc);
    let found = rewrite(alloc, expr)?;
    let alone = calm(alloc, expr)?;
    if !are_one(alloc, &found.expr, &alone)? {
        out.push_str("two calm trees; ")?;
    }
    let last = text_of(alloc, &found.expr)?;
    'steps: for step in found.steps {
        push_step(alloc, &mut out, &step)?;
        if !is_of_one_rule(step) {
            out.push_str("refused; ")?;
        }
    }
    out.push_str("= ")?;
    out.push_str(last.as_str())?;
    Ok(out)
}

/// The result of rewriting the expression of a text.
pub fn answer(alloc: Global, text: &[u8]) -> Result<String, Fail> {
    let Some(script) = script_of(alloc, text)? else {
        return Ok(String::from_str(alloc, "no script")?);
    };
    match value_of(&script) {
        Some(expr) => answer_of(alloc, expr),
        None => Ok(String::from_str(alloc, "no expression")?),
    }
}
