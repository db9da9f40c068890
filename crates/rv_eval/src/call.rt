//! The public calls.
ghost use Rattle.std.specs.Prelude.{◌≡◌, IfOk, IsErrOf};
ghost use Rattle.rel_model.specs.declared.Lack.TheVariants.{Full};
ghost use Rattle.rel_model.specs.Worker.{Stands, Keeps, MakesAtMost};
ghost use Rattle.rel_slices.specs.Thin.{IsLines};
ghost use Rattle.rel_values.specs.Values.{Fits};
ghost use Rattle.lang_model.specs.declared.faults.TypeFault.TheVariants.{NoMemory as FAULT_NO_MEMORY};
ghost use Rattle.lang_model.specs.Trees.{tree_of};
ghost use Rattle.lang_model.specs.Rewriting.{calmed};
ghost use Rattle.lang_model.specs.Mean.{meaning, meaning_of_tree};
ghost use Rattle.lang_model.specs.Eval.{Comes, evaluated, cost_of_value, IsCompound};
ghost use Rattle.rv_eval.specs.declared.halt.Halt.TheVariants.{Lack as LACK};
ghost use Rattle.rv_eval.specs.declared.halt.Refused.TheVariants.{Ill as ILL_REFUSED, Nodes};
ghost use Rattle.rv_eval.specs.Names.{state_of, AllStand};
ghost use Rattle.rv_eval.specs.Ends.{EndsWith};
ghost use Rattle.rv_eval.specs.Refusing.{Evaluates, IsEvaluated};

use crate::early::refused_ahead;
use crate::halt::{Halt, Refused};
use crate::here::{Around, Here};
use crate::names::wholes;
use crate::refusal::refusal;
use crate::steps::value_of_name;
use crate::walk::eval_expr;
use lang_model::limits::RANK_LIMIT;
use lang_model::syntax::{Expr, Name};
use rel_model::{Lack, NoMemory, Rel};
use rel_slices::{Remembers, Value};
use rel_values::whole;
use rv_rewrite::calm;
use rv_types::Checked;
use std::alloc::Global;

/// The value of a command's expression, with this many turns left, working with values of either form.
fn value_through<E: Remembers>(
    alloc: Global,
    engine: &mut E,
    checked: &Checked,
    env: &[(Name, Rel)],
    expr: &Expr,
    turns: &mut u64,
) -> Result<Value, Halt>
    requires standing { AllStand (E.worker engine.old) env.now }
    ensures ends { let w = E.worker engine.old in
        let m = meaning checked.now (state_of w env.now) expr.now turns.old in
        EndsWith E.least w (E.worker engine.new) turns.old turns.new 0 m result }
    ensures fits { IfOk result (Fits (E.worker engine.new)) }
{
    let names = match wholes(alloc, env) {
        Ok(names) => names,
        Err(NoMemory) => return Err(Halt::Lack(Lack::NoMemory)),
    };
    let given = names.as_slice();
    let around = Around {
        alloc,
        checked,
        rank: RANK_LIMIT,
        decls: &[],
    };
    let here = Here {
        around,
        names: given,
    };
    eval_expr(engine, &here, expr, turns)
}

/// The value of a command's expression, with this many turns left. A plain name is only looked up, which makes no node.
fn value_with<E: Remembers>(
    alloc: Global,
    engine: &mut E,
    checked: &Checked,
    env: &[(Name, Rel)],
    expr: &Expr,
    turns: &mut u64,
) -> Result<Value, Halt>
    requires standing { AllStand (E.worker engine.old) env.now }
    ensures ends { let w = E.worker engine.old in
        let m = meaning checked.now (state_of w env.now) expr.now turns.old in
        EndsWith E.least w (E.worker engine.new) turns.old turns.new 0 m result }
    ensures compound { IsErrOf result (LACK Full) → IsCompound expr.now }
    ensures lines { IfOk result (λ v. IsLines v → IsCompound expr.now) }
    ensures fits { IfOk result (Fits (E.worker engine.new)) }
{
    match expr {
        Expr::Ref { at, name } => match value_of_name(alloc, env, *at, name) {
            Ok(rel) => Ok(Value::Whole(rel)),
            Err(halt) => Err(halt),
        },
        _ => value_through(alloc, engine, checked, env, expr, turns),
    }
}

/// The meaning of a command's expression over these names, or why it has none.
fn meaning_of<E: Remembers>(
    alloc: Global,
    engine: &mut E,
    checked: &Checked,
    env: &[(Name, Rel)],
    expr: &Expr,
    turns: u64,
) -> Result<Value, Refused>
    requires standing { AllStand (E.worker engine.old) env.now }
    ensures { let w = E.worker engine.old in
        let m = meaning checked.now (state_of w env.now) expr.now turns in
        Evaluates E.least w (E.worker engine.new) turns expr.now (Comes m) result }
{
    let mut left = turns;
    match value_with(alloc, engine, checked, env, expr, &mut left) {
        Ok(value) => Ok(value),
        Err(halt) => Err(refusal(turns, halt)),
    }
}

/// The meaning of the calm tree of a command's expression over these names, or why it has none. A plain name is calm.
fn calm_meaning_of<E: Remembers>(
    alloc: Global,
    engine: &mut E,
    checked: &Checked,
    env: &[(Name, Rel)],
    expr: &Expr,
    turns: u64,
) -> Result<Value, Refused>
    requires standing { AllStand (E.worker engine.old) env.now }
    ensures { let w = E.worker engine.old in
        let m = meaning_of_tree checked.now (state_of w env.now) (calmed (tree_of expr.now)) turns in
        Evaluates E.least w (E.worker engine.new) turns expr.now (Comes m) result }
{
    match expr {
        Expr::Ref { .. } => meaning_of(alloc, engine, checked, env, expr, turns),
        _ => match calm(alloc, expr) {
            Ok(rewritten) => meaning_of(alloc, engine, checked, env, &rewritten, turns),
            Err(NoMemory) => Err(Refused::NoMemory),
        },
    }
}

/// The value of a command's expression over these names, whole or as lines, or why it has none.
///
/// The leftmost name that is not among them is reported first, then the first static fault; for neither of these is
/// anything computed. Otherwise it is the meaning. What is evaluated is the expression's calm tree, which has the same
/// meaning; making the value whole is within its cost too (`Evaluates`).
pub fn eval_value<E: Remembers>(
    alloc: Global,
    engine: &mut E,
    checked: &Checked,
    env: &[(Name, Rel)],
    expr: &Expr,
    turns: u64,
) -> Result<Value, Refused>
    requires standing { AllStand (E.worker engine.old) env.now }
    ensures { let w = E.worker engine.old in
        let e = evaluated checked.now (state_of w env.now) expr.now turns in
        Evaluates E.least w (E.worker engine.new) turns expr.now e result }
{
    match refused_ahead(alloc, checked, env, expr) {
        Some(refused) => Err(refused),
        None => calm_meaning_of(alloc, engine, checked, env, expr, turns),
    }
}

/// The same as a whole relation.
pub fn eval<E: Remembers>(
    alloc: Global,
    engine: &mut E,
    checked: &Checked,
    env: &[(Name, Rel)],
    expr: &Expr,
    turns: u64,
) -> Result<Rel, Refused>
    requires standing { AllStand (E.worker engine.old) env.now }
    ensures answer { let w = E.worker engine.old in
        let e = evaluated checked.now (state_of w env.now) expr.now turns in
        IsEvaluated w (E.worker engine.new) turns e result }
    ensures compound { IsErrOf result Nodes → IsCompound expr.now }
    ensures memory { IsErrOf result (ILL_REFUSED FAULT_NO_MEMORY) → ⊥ }
    ensures stands { IfOk result (Stands (E.worker engine.new)) }
    ensures keeps { Keeps (E.worker engine.old) (E.worker engine.new) }
    ensures room { let w = E.worker engine.old in
        let e = evaluated checked.now (state_of w env.now) expr.now turns in
        MakesAtMost (cost_of_value E.least e) w (E.worker engine.new) }
{
    let value = match eval_value(alloc, engine, checked, env, expr, turns) {
        Ok(value) => value,
        Err(refused) => return Err(refused),
    };
    match &value {
        Value::Whole(rel) => Ok(*rel),
        Value::Lines(_) => match whole(engine, &value) {
            Ok(rel) => Ok(rel),
            Err(lack) => Err(refusal(turns, Halt::Lack(lack))),
        },
    }
}
