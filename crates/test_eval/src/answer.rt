//! What `parse`, `check` and `eval` answer to a script given as text, and what the slow evaluator answers.
ghost use Rattle.std.specs.Prelude.{◌≡◌, ◌++◌, [], ◌∷◌};
ghost use Rattle.rel_model.specs.Worker.{Stands, Keeps};
ghost use Rattle.rv_eval.specs.Names.{AllStand};

use crate::listed::{Listed, none_of, put as put_pair};
use crate::made::{pairs_of, told};
use crate::named::{Named, set};
use crate::slow::evaluated;
use crate::texts::{
    add, count_text, fault_text, made, pairs_text, parse_text, refusal_text, size_fault,
};
use lang_model::syntax::{Command, Expr, Item, Name, Row, Script};
use rel_model::Rel;
use rel_slices::Remembers;
use rv_eval::eval;
use rv_parse::parse;
use rv_types::{Checked, check};
use std::alloc::Global;
use std::process::Abort;

/// What a command shows of its expression's value.
#[derive(Clone, Copy)]
enum View {
    Pairs,
    Count,
    Sizes,
}

/// The script that a text spells, checked; or the fault, as text.
pub(crate) fn checked_of(rt: &impl Abort, alloc: Global, text: &[u8]) -> Result<Checked, String> {
    if text.len() > 1_048_576 {
        panic!(rt; "too long");
    }
    match parse(alloc, text) {
        Ok(script) => match check(alloc, script) {
            Ok(checked) => Ok(checked),
            Err(fault) => Err(fault_text(rt, alloc, &fault)),
        },
        Err(fault) => Err(parse_text(rt, alloc, &fault)),
    }
}

/// The pairs that a REL lists, or the fault of the first number over its size, as text.
fn listed(
    rt: &impl Abort,
    alloc: Global,
    rows: u64,
    cols: u64,
    list: &[Row],
) -> Result<Listed, String> {
    let (Ok(m), Ok(n)) = (u32::try_from(rows), u32::try_from(cols)) else {
        panic!(rt; "too large");
    };
    let mut found = none_of(alloc, m, n);
    'rows: for row in list {
        if row.row > rows {
            return Err(size_fault(rt, alloc, row.at, row.row, rows));
        }
        'cols: for col in row.cols.as_slice() {
            if col.col > cols {
                return Err(size_fault(rt, alloc, col.at, col.col, cols));
            }
            match (u32::try_from(row.row), u32::try_from(col.col)) {
                (Ok(i), Ok(j)) => put_pair(rt, &mut found, i.wrapping_sub(1), j.wrapping_sub(1)),
                _ => panic!(rt; "too large"),
            }
        }
    }
    Ok(found)
}

/// The text of a list of pairs, in this view.
fn list_text(rt: &impl Abort, alloc: Global, view: View, list: &Listed) -> String {
    match view {
        View::Pairs => pairs_text(rt, alloc, list),
        View::Count => count_text(rt, alloc, list.rows, list.cols, list.pairs.len() as u64),
        View::Sizes => made(rt, format!(in alloc; "{}x{}", list.rows, list.cols)),
    }
}

/// The text of a relation, in this view.
fn rel_text<E: Remembers>(
    rt: &impl Abort,
    alloc: Global,
    engine: &mut E,
    view: View,
    r: Rel,
) -> String
    requires { Stands (E.worker engine.old) r }
    ensures { Keeps (E.worker engine.old) (E.worker engine.new) }
{
    match view {
        View::Pairs => {
            let list = pairs_of(rt, alloc, engine, r);
            pairs_text(rt, alloc, &list)
        }
        View::Count => match engine.count(alloc, r) {
            Ok(count) => count_text(rt, alloc, r.rows, r.cols, count),
            Err(_) => panic!(rt; "no memory"),
        },
        View::Sizes => made(rt, format!(in alloc; "{}x{}", r.rows, r.cols)),
    }
}

/// The view and the expression of a command that shows a value.
fn shown(command: &Command) -> Option<(View, &Expr)> {
    match command {
        Command::Print { value } => Some((View::Pairs, value)),
        Command::List { value } => Some((View::Pairs, value)),
        Command::Count { value } => Some((View::Count, value)),
        Command::Typed { value } => Some((View::Sizes, value)),
        _ => None,
    }
}

/// Appends a name and its relation.
fn push(rt: &impl Abort, alloc: Global, names: &mut Vec<(Name, Rel)>, name: &Name, rel: Rel)
    ensures { names.new.items ≡ names.old.items ++ (name.now, rel) ∷ [] }
{
    let Ok(own) = name.copied(alloc) else {
        panic!(rt; "no memory");
    };
    if names.push((own, rel)).is_err() {
        panic!(rt; "no memory");
    }
}

/// The same for a relation that stands, after others that stand.
pub(crate) fn put<E: Remembers>(
    rt: &impl Abort,
    alloc: Global,
    engine: &E,
    names: &mut Vec<(Name, Rel)>,
    name: &Name,
    rel: Rel,
)
    requires names { AllStand (E.worker engine.now) names.old.items }
    requires rel { Stands (E.worker engine.now) rel }
    ensures { AllStand (E.worker engine.now) names.new.items }
{
    push(rt, alloc, names, name, rel)
}

/// Assigns a name a listed relation. Answers only if a number is over its size.
#[tactic(auto, using(crate::proofs::Standing::names_kept))]
fn step_relation<E: Remembers>(
    rt: &impl Abort,
    alloc: Global,
    engine: &mut E,
    names: &mut Vec<(Name, Rel)>,
    name: &Name,
    given: Result<Listed, String>,
) -> Option<String>
    requires { AllStand (E.worker engine.old) names.old.items }
    ensures { AllStand (E.worker engine.new) names.new.items }
{
    match given {
        Ok(list) => {
            let rel = told(rt, alloc, engine, &list);
            put(rt, alloc, engine, names, name, rel);
            None
        }
        Err(text) => Some(text),
    }
}

/// Assigns a name the value of an expression. Answers only if it is refused.
#[tactic(auto, using(crate::proofs::Standing::names_kept))]
fn step_let<E: Remembers>(
    rt: &impl Abort,
    alloc: Global,
    engine: &mut E,
    checked: &Checked,
    names: &mut Vec<(Name, Rel)>,
    name: &Name,
    value: &Expr,
    turns: u64,
) -> Option<String>
    requires { AllStand (E.worker engine.old) names.old.items }
    ensures { AllStand (E.worker engine.new) names.new.items }
{
    match eval(alloc, engine, checked, names.as_slice(), value, turns) {
        Ok(rel) => {
            put(rt, alloc, engine, names, name, rel);
            None
        }
        Err(refused) => Some(refusal_text(rt, alloc, &refused)),
    }
}

/// What a command shows of an expression's value, or why it is refused.
fn step_shown<E: Remembers>(
    rt: &impl Abort,
    alloc: Global,
    engine: &mut E,
    checked: &Checked,
    names: &[(Name, Rel)],
    view: View,
    value: &Expr,
    turns: u64,
) -> String
    requires { AllStand (E.worker engine.old) names.now }
    ensures { Keeps (E.worker engine.old) (E.worker engine.new) }
{
    match eval(alloc, engine, checked, names, value, turns) {
        Ok(rel) => rel_text(rt, alloc, engine, view, rel),
        Err(refused) => refusal_text(rt, alloc, &refused),
    }
}

/// What an engine answers to a command, if anything.
#[tactic(auto, using(crate::proofs::Standing::names_kept))]
fn step<E: Remembers>(
    rt: &impl Abort,
    alloc: Global,
    engine: &mut E,
    checked: &Checked,
    names: &mut Vec<(Name, Rel)>,
    command: &Command,
    turns: u64,
) -> Option<String>
    requires { AllStand (E.worker engine.old) names.old.items }
    ensures { AllStand (E.worker engine.new) names.new.items }
{
    match command {
        Command::Relation {
            name,
            rows,
            cols,
            list,
            ..
        } => {
            let given = listed(rt, alloc, *rows, *cols, list.as_slice());
            step_relation(rt, alloc, engine, names, name, given)
        }
        Command::Let { name, value } => {
            step_let(rt, alloc, engine, checked, names, name, value, turns)
        }
        _ => match shown(command) {
            Some((view, value)) => {
                let names = names.as_slice();
                Some(step_shown(rt, alloc, engine, checked, names, view, value, turns))
            }
            None => None,
        },
    }
}

/// Appends an answer to the others, separated by ` / `.
fn put_answer(rt: &impl Abort, text: &mut String, answer: Option<String>) {
    if let Some(answer) = answer {
        if !text.as_str().is_empty() {
            add(rt, text, " / ");
        }
        add(rt, text, answer.as_str());
    }
}

/// What an engine answers to the commands of a script.
#[tactic(auto, using(crate::proofs::Standing::no_names))]
pub(crate) fn answers<E: Remembers>(
    rt: &impl Abort,
    alloc: Global,
    engine: &mut E,
    checked: &Checked,
    turns: u64,
) -> String {
    let mut names: Vec<(Name, Rel)> = Vec::new(alloc);
    let mut text = String::new(alloc);
    'items: for item in checked.script().items.as_slice() {
        if let Item::Command(command) = item {
            let answer = step(rt, alloc, engine, checked, &mut names, command, turns);
            put_answer(rt, &mut text, answer);
        }
    }
    text
}

/// What `parse`, `check` or an engine answers to a text.
pub(crate) fn answer<E: Remembers>(
    rt: &impl Abort,
    alloc: Global,
    engine: &mut E,
    text: &[u8],
    turns: u64,
) -> String {
    match checked_of(rt, alloc, text) {
        Ok(checked) => answers(rt, alloc, engine, &checked, turns),
        Err(fault) => fault,
    }
}

/// Assigns a name a list of pairs, or gives the slow evaluator's refusal.
fn slow_set(
    rt: &impl Abort,
    alloc: Global,
    names: &mut Vec<Named>,
    name: &Name,
    given: Result<Listed, String>,
) -> Option<String> {
    match given {
        Ok(list) => {
            set(rt, alloc, names, name.bytes(), list);
            None
        }
        Err(text) => Some(text),
    }
}

/// The value of an expression by the slow evaluator, or why it is refused.
fn slow_value(
    rt: &impl Abort,
    alloc: Global,
    script: &Script,
    names: &[Named],
    value: &Expr,
    turns: u64,
) -> Result<Listed, String> {
    match evaluated(rt, alloc, script.items.as_slice(), names, value, turns) {
        Ok(list) => Ok(list),
        Err(refused) => Err(refusal_text(rt, alloc, &refused)),
    }
}

/// What the slow evaluator shows of an expression's value, or why it is refused.
fn slow_shown(rt: &impl Abort, alloc: Global, view: View, given: Result<Listed, String>) -> String {
    match given {
        Ok(list) => list_text(rt, alloc, view, &list),
        Err(text) => text,
    }
}

/// What the slow evaluator answers to a command, if anything.
fn slow_step(
    rt: &impl Abort,
    alloc: Global,
    script: &Script,
    names: &mut Vec<Named>,
    command: &Command,
    turns: u64,
) -> Option<String> {
    match command {
        Command::Relation {
            name,
            rows,
            cols,
            list,
            ..
        } => {
            let given = listed(rt, alloc, *rows, *cols, list.as_slice());
            slow_set(rt, alloc, names, name, given)
        }
        Command::Let { name, value } => {
            let given = slow_value(rt, alloc, script, names.as_slice(), value, turns);
            slow_set(rt, alloc, names, name, given)
        }
        _ => match shown(command) {
            Some((view, value)) => {
                let given = slow_value(rt, alloc, script, names.as_slice(), value, turns);
                Some(slow_shown(rt, alloc, view, given))
            }
            None => None,
        },
    }
}

/// What the slow evaluator answers to the commands of a script.
pub(crate) fn slow_answers(
    rt: &impl Abort,
    alloc: Global,
    checked: &Checked,
    turns: u64,
) -> String {
    let mut names: Vec<Named> = Vec::new(alloc);
    let mut text = String::new(alloc);
    let script = checked.script();
    'items: for item in script.items.as_slice() {
        if let Item::Command(command) = item {
            let answer = slow_step(rt, alloc, script, &mut names, command, turns);
            put_answer(rt, &mut text, answer);
        }
    }
    text
}
