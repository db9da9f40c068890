//! Values of expressions, and the forms in which they are shown.
ghost use Rattle.std.specs.Prelude.{◌≡◌, Err};
ghost use Rattle.rel_model.specs.Worker.{Stands, set_of, Keeps, MakesAtMost};
ghost use Rattle.rel_slices.specs.Thin.{value_of};
ghost use Rattle.rel_values.specs.Values.{Fits};
ghost use Rattle.rv_eval.specs.Names.{AllStand};
ghost use Rattle.rv_sessions.specs.declared.form.Form.TheVariants.{Matrix, Listing, Count, Typed, File};
ghost use Rattle.rv_sessions.specs.Valuing.{outcome_told, CameOver, CameTo, CameToValue};
ghost use Rattle.rv_sessions.specs.Showing.{IsShown, CameShown};
ghost use Rattle.rv_sessions.specs.Told.{bytes_of};

use crate::form::{Form, print_outcome, write_outcome};
use crate::task::Task;
use k2_file::write_k2;
use lang_model::syntax::{Expr, Name};
use rel_model::{NoMemory, Rel};
use rel_slices::{Remembers, Value, shape_of};
use rel_values::{count, pairs, pairs_within};
use run_model::limits::LIST_LIMIT;
use run_model::outcome::Outcome;
use rv_eval::{Refused, eval, eval_value};
use rv_print::{listing_of, matrix, matrix_of, may_list, may_print, number_line, shape_text};
use std::alloc::Global;

/// Turns a refusal into the outcome that reports it.
pub(crate) fn outcome_of(refused: Refused) -> Outcome
    ensures { result ≡ outcome_told refused }
{
    match refused {
        Refused::Ill(fault) => Outcome::Ill(fault),
        Refused::Size { at, wanted, limit } => Outcome::Size { at, wanted, limit },
        Refused::Turns { at, limit } => Outcome::Turns { at, limit },
        Refused::Nodes => Outcome::Nodes,
        Refused::NoMemory => Outcome::NoMemory,
    }
}

/// The value of an expression over these names, made whole, or why it has none.
pub(crate) fn value_on<E: Remembers, W>(
    task: &Task<'_, E, W>,
    engine: &mut E,
    names: &[(Name, Rel)],
    expr: &Expr,
) -> Result<Rel, Outcome>
    requires standing { AllStand (E.worker engine.old) names.now }
    ensures { CameOver CameTo E.least task.now.checked.now names.now expr.now task.now.turns
        (E.worker engine.old) (E.worker engine.new) result }
{
    match eval(task.alloc, engine, task.checked, names, expr, task.turns) {
        Ok(rel) => Ok(rel),
        Err(refused) => Err(outcome_of(refused)),
    }
}

/// The value of an expression over these names, whole or as lines, or why it has none.
fn any_value_on<E: Remembers, W>(
    task: &Task<'_, E, W>,
    engine: &mut E,
    names: &[(Name, Rel)],
    expr: &Expr,
) -> Result<Value, Outcome>
    requires standing { AllStand (E.worker engine.old) names.now }
    ensures { CameOver CameToValue E.least task.now.checked.now names.now expr.now task.now.turns
        (E.worker engine.old) (E.worker engine.new) result }
{
    match eval_value(task.alloc, engine, task.checked, names, expr, task.turns) {
        Ok(value) => Ok(value),
        Err(refused) => Err(outcome_of(refused)),
    }
}

/// The matrix of a relation, or why there is none. No node is made.
fn whole_text<E: Remembers>(alloc: Global, engine: &mut E, rel: Rel) -> Result<Vec<u8>, Outcome>
    requires { Stands (E.worker engine.old) rel }
    ensures shown { IsShown Matrix (set_of (E.worker engine.old) rel) (bytes_of result) }
    ensures keeps { Keeps (E.worker engine.old) (E.worker engine.new) }
    ensures room { MakesAtMost 0 (E.worker engine.old) (E.worker engine.new) }
{
    match matrix(alloc, engine, rel) {
        Ok(text) => Ok(text),
        Err(refused) => Err(print_outcome(refused)),
    }
}

/// The matrix of a value by its pairs, or why there is none. No node is made.
fn marked_text<E: Remembers>(
    alloc: Global,
    engine: &mut E,
    value: &Value,
) -> Result<Vec<u8>, Outcome>
    requires { Fits (E.worker engine.old) value.now }
    ensures shown { IsShown Matrix (value_of (E.worker engine.old) value.now) (bytes_of result) }
    ensures keeps { Keeps (E.worker engine.old) (E.worker engine.new) }
    ensures room { MakesAtMost 0 (E.worker engine.old) (E.worker engine.new) }
{
    let shape = shape_of(value);
    match may_print(shape) {
        Ok(()) => {}
        Err(refused) => return Err(print_outcome(refused)),
    }
    let listed = match pairs(alloc, engine, value) {
        Ok(listed) => listed,
        Err(NoMemory) => return Err(Outcome::NoMemory),
    };
    match matrix_of(alloc, shape, listed.as_slice()) {
        Ok(text) => Ok(text),
        Err(NoMemory) => Err(Outcome::NoMemory),
    }
}

/// The matrix of a value, or why there is none. No node is made.
fn print_text<E: Remembers>(
    alloc: Global,
    engine: &mut E,
    value: &Value,
) -> Result<Vec<u8>, Outcome>
    requires { Fits (E.worker engine.old) value.now }
    ensures shown { IsShown Matrix (value_of (E.worker engine.old) value.now) (bytes_of result) }
    ensures keeps { Keeps (E.worker engine.old) (E.worker engine.new) }
    ensures room { MakesAtMost 0 (E.worker engine.old) (E.worker engine.new) }
{
    match value {
        Value::Whole(rel) => whole_text(alloc, engine, *rel),
        Value::Lines(_) => marked_text(alloc, engine, value),
    }
}

/// The matrix of an expression's value, or why there is none. Nothing is made whole.
fn printed_on<E: Remembers, W>(
    task: &Task<'_, E, W>,
    engine: &mut E,
    names: &[(Name, Rel)],
    expr: &Expr,
) -> Result<Vec<u8>, Outcome>
    requires standing { AllStand (E.worker engine.old) names.now }
    ensures { CameOver (CameShown Matrix) E.least task.now.checked.now names.now expr.now task.now.turns
        (E.worker engine.old) (E.worker engine.new) (bytes_of result) }
{
    let value = match any_value_on(task, engine, names, expr) {
        Ok(value) => value,
        Err(outcome) => return Err(outcome),
    };
    print_text(task.alloc, engine, &value)
}

/// Why a value's pairs are not listed: there are too many, or memory ran out. No node is made.
fn unlisted<E: Remembers>(alloc: Global, engine: &mut E, value: &Value) -> Outcome
    requires { Fits (E.worker engine.old) value.now }
    ensures shown { IsShown Listing (value_of (E.worker engine.old) value.now) (Err result) }
    ensures keeps { Keeps (E.worker engine.old) (E.worker engine.new) }
    ensures room { MakesAtMost 0 (E.worker engine.old) (E.worker engine.new) }
{
    let number = match count(alloc, engine, value) {
        Ok(number) => number,
        Err(NoMemory) => return Outcome::NoMemory,
    };
    match may_list(number) {
        Ok(()) => Outcome::NoMemory,
        Err(refused) => print_outcome(refused),
    }
}

/// The list of a value's pairs, or why there is none. No node is made.
///
/// Only where there is no list are the pairs counted, for the refusal.
fn list_text<E: Remembers>(alloc: Global, engine: &mut E, value: &Value) -> Result<Vec<u8>, Outcome>
    requires { Fits (E.worker engine.old) value.now }
    ensures shown { IsShown Listing (value_of (E.worker engine.old) value.now) (bytes_of result) }
    ensures keeps { Keeps (E.worker engine.old) (E.worker engine.new) }
    ensures room { MakesAtMost 0 (E.worker engine.old) (E.worker engine.new) }
{
    let Some(listed) = pairs_within(alloc, engine, value, LIST_LIMIT as usize) else {
        return Err(unlisted(alloc, engine, value));
    };
    match listing_of(alloc, shape_of(value), listed.as_slice()) {
        Ok(text) => Ok(text),
        Err(NoMemory) => Err(Outcome::NoMemory),
    }
}

/// The list of the pairs of an expression's value, or why there is none. Nothing is made whole.
fn listed_on<E: Remembers, W>(
    task: &Task<'_, E, W>,
    engine: &mut E,
    names: &[(Name, Rel)],
    expr: &Expr,
) -> Result<Vec<u8>, Outcome>
    requires standing { AllStand (E.worker engine.old) names.now }
    ensures { CameOver (CameShown Listing) E.least task.now.checked.now names.now expr.now task.now.turns
        (E.worker engine.old) (E.worker engine.new) (bytes_of result) }
{
    let value = match any_value_on(task, engine, names, expr) {
        Ok(value) => value,
        Err(outcome) => return Err(outcome),
    };
    list_text(task.alloc, engine, &value)
}

/// How many pairs an expression's value has, as a line, or why there is none. Nothing is made whole.
fn counted_on<E: Remembers, W>(
    task: &Task<'_, E, W>,
    engine: &mut E,
    names: &[(Name, Rel)],
    expr: &Expr,
) -> Result<Vec<u8>, Outcome>
    requires standing { AllStand (E.worker engine.old) names.now }
    ensures { CameOver (CameShown Count) E.least task.now.checked.now names.now expr.now task.now.turns
        (E.worker engine.old) (E.worker engine.new) (bytes_of result) }
{
    let value = match any_value_on(task, engine, names, expr) {
        Ok(value) => value,
        Err(outcome) => return Err(outcome),
    };
    match count(task.alloc, engine, &value) {
        Ok(number) => match number_line(task.alloc, number) {
            Ok(text) => Ok(text),
            Err(NoMemory) => Err(Outcome::NoMemory),
        },
        Err(NoMemory) => Err(Outcome::NoMemory),
    }
}

/// The type of an expression's value, as a line, or why there is none. Nothing is made whole.
fn typed_on<E: Remembers, W>(
    task: &Task<'_, E, W>,
    engine: &mut E,
    names: &[(Name, Rel)],
    expr: &Expr,
) -> Result<Vec<u8>, Outcome>
    requires standing { AllStand (E.worker engine.old) names.now }
    ensures { CameOver (CameShown Typed) E.least task.now.checked.now names.now expr.now task.now.turns
        (E.worker engine.old) (E.worker engine.new) (bytes_of result) }
{
    let value = match any_value_on(task, engine, names, expr) {
        Ok(value) => value,
        Err(outcome) => return Err(outcome),
    };
    match shape_text(task.alloc, shape_of(&value)) {
        Ok(text) => Ok(text),
        Err(NoMemory) => Err(Outcome::NoMemory),
    }
}

/// The bytes of the relation file of an expression's value, or why there are none.
fn filed_on<E: Remembers, W>(
    task: &Task<'_, E, W>,
    engine: &mut E,
    names: &[(Name, Rel)],
    expr: &Expr,
) -> Result<Vec<u8>, Outcome>
    requires standing { AllStand (E.worker engine.old) names.now }
    ensures { CameOver (CameShown File) E.least task.now.checked.now names.now expr.now task.now.turns
        (E.worker engine.old) (E.worker engine.new) (bytes_of result) }
{
    let rel = match value_on(task, engine, names, expr) {
        Ok(rel) => rel,
        Err(outcome) => return Err(outcome),
    };
    match write_k2(task.alloc, engine, rel) {
        Ok(bytes) => Ok(bytes),
        Err(refused) => Err(write_outcome(refused)),
    }
}

/// The bytes of an expression's value in this form, or why there are none. Only for a file the value is made whole.
pub(crate) fn shown_on<E: Remembers, W>(
    task: &Task<'_, E, W>,
    engine: &mut E,
    names: &[(Name, Rel)],
    form: Form,
    expr: &Expr,
) -> Result<Vec<u8>, Outcome>
    requires standing { AllStand (E.worker engine.old) names.now }
    ensures { CameOver (CameShown form) E.least task.now.checked.now names.now expr.now task.now.turns
        (E.worker engine.old) (E.worker engine.new) (bytes_of result) }
{
    match form {
        Form::Matrix => printed_on(task, engine, names, expr),
        Form::Listing => listed_on(task, engine, names, expr),
        Form::Count => counted_on(task, engine, names, expr),
        Form::Typed => typed_on(task, engine, names, expr),
        Form::File => filed_on(task, engine, names, expr),
    }
}
