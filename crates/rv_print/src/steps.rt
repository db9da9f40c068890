//! The reply of EXPLAIN: the steps of rewriting.
ghost use Rattle.std.specs.Prelude.{◌≡◌, ◌++◌, OnOk, IfOk};
ghost use Rattle.run_model.specs.Page.{step_text, explanation};
ghost use Rattle.rv_rewrite.specs.Steps.{step_of, steps_by_trees};

use crate::pieces::push_number;
use rel_model::NoMemory;
use rv_rewrite::Step;
use rv_spell::print_expr;
use std::alloc::Global;

/// Appends `RULE: BEFORE -> AFTER` and a line feed.
fn push_step(alloc: Global, out: &mut Vec<u8>, step: &Step) -> Result<(), NoMemory>
    ensures { OnOk result (out.new.items ≡ out.old.items ++ step_text (step_of step.now)) }
{
    push_number(alloc, out, u64::from(step.rule))?;
    out.extend_from_slice(b": ")?;
    let before = print_expr(alloc, &step.before)?;
    out.extend_from_slice(before.as_slice())?;
    out.extend_from_slice(b" -> ")?;
    let after = print_expr(alloc, &step.after)?;
    out.extend_from_slice(after.as_slice())?;
    out.extend_from_slice(b"\n")?;
    Ok(())
}

/// `K steps`, and a line `RULE: BEFORE -> AFTER` for each step, in time linear in the text.
#[tactic(auto, unfolding(run_model::specs::Page::explanation))]
pub fn steps_text(alloc: Global, steps: &[Step]) -> Result<Vec<u8>, NoMemory>
    ensures { IfOk result (λ v. v.items ≡ explanation (steps_by_trees steps.now)) }
{
    let mut out = Vec::new(alloc);
    push_number(alloc, &mut out, steps.len() as u64)?;
    out.extend_from_slice(b" steps\n")?;
    'steps: for step in steps {
        push_step(alloc, &mut out, step)?;
    }
    Ok(out)
}
