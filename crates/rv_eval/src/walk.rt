//! Evaluates expressions, calls and statements, by recursion over the syntax.
ghost use Rattle.std.specs.Prelude.{◌≡◌, ◌≤◌, ◌<◌, [], ℕ, max, List, map, IfOk, OnOk};
ghost use Rattle.std.specs.List.{AllByRecursion};
ghost use Rattle.rel_slices.specs.Thin.{value_of};
ghost use Rattle.rel_values.specs.Values.{Fits, owed};
ghost use Rattle.lang_model.specs.Outcomes.{and_then};
ghost use Rattle.lang_model.specs.Mean.{mean, means_by, mean_by, mean_test, around_with, calls_within, run, run_by, looped};
ghost use Rattle.rv_eval.specs.Values.{AllFit, state_by, names_owe, values_owe};
ghost use Rattle.rv_eval.specs.Around.{around_of, state_of_here, owed_by_here};
ghost use Rattle.rv_eval.specs.Ends.{Ends, EndsWith, EndsRun};

use crate::bases::base_call;
use crate::domain_calls::pair;
use crate::faults::{too_deep, unknown};
use crate::halt::Halt;
use crate::here::{Around, Called, Here, Loop};
use crate::operators::{complement, link, link_turned, transposed};
use crate::starts::turned_start;
use crate::steps::{assign, bound_names, decide, inject, value_of_name};
use lang_model::syntax::{Decl, Expr, Item, Link, Name, Place, Stmt};
use rel_model::Lack;
use rel_slices::{Remembers, Value};

/// The value of an expression, with this many turns left.
#[cycle(eval)]
pub fn eval_expr<E: Remembers>(
    engine: &mut E,
    here: &Here,
    expr: &Expr,
    turns: &mut u64,
) -> Result<Value, Halt>
    requires standing { AllFit (E.worker engine.old) here.now.names.now }
    ensures ends { let w = E.worker engine.old in
        let m = mean (around_of here.now.around) (state_of_here w here.now) expr.now turns.old in
        EndsWith E.least w (E.worker engine.new) turns.old turns.new (owed_by_here E.least here.now) m result }
    ensures fits { IfOk result (Fits (E.worker engine.new)) }
{
    match expr {
        Expr::Ref { at, name } => value_of_name(here.around.alloc, here.names, *at, name),
        Expr::Call { at, name, args } => match eval_args(engine, here, args.as_slice(), turns) {
            Ok(values) => {
                let called = Called { at: *at, name };
                call(engine, &here.around, called, values.as_slice(), turns)
            }
            Err(halt) => Err(halt),
        },
        Expr::Base { at, base, args } => match eval_args(engine, here, args.as_slice(), turns) {
            Ok(values) => base_call(here.around.alloc, engine, *at, *base, values.as_slice()),
            Err(halt) => Err(halt),
        },
        Expr::Inject { at, base, domain } => inject(engine, here, *at, *base, domain),
        Expr::Pair { at, left, right } => match eval_expr(engine, here, left, turns) {
            Ok(first) => match eval_expr(engine, here, right, turns) {
                Ok(second) => pair(here.around.alloc, engine, *at, &first, &second),
                Err(halt) => Err(halt),
            },
            Err(halt) => Err(halt),
        },
        Expr::Minus { of, .. } => match eval_expr(engine, here, of, turns) {
            Ok(operand) => complement(engine, &operand),
            Err(halt) => Err(halt),
        },
        Expr::Turned { of, times, .. } => match eval_expr(engine, here, of, turns) {
            Ok(operand) => transposed(engine, &operand, *times),
            Err(halt) => Err(halt),
        },
        Expr::Chain { first, rest } => eval_chain(engine, here, first, rest.as_slice(), turns),
    }
}

/// The value of a chain. One that begins with `R^...^ * S` leaves the transposition to the composition.
#[cycle(eval)]
fn eval_chain<E: Remembers>(
    engine: &mut E,
    here: &Here,
    first: &Expr,
    rest: &[Link],
    turns: &mut u64,
) -> Result<Value, Halt>
    requires standing { AllFit (E.worker engine.old) here.now.names.now }
    ensures ends { let w = E.worker engine.old in
        let a = around_of here.now.around in
        let s = state_of_here w here.now in
        let m = and_then (mean a s first.now turns.old) (λ r n. mean_by a s r rest.now n) in
        EndsWith E.least w (E.worker engine.new) turns.old turns.new (owed_by_here E.least here.now) m result }
    ensures fits { IfOk result (Fits (E.worker engine.new)) }
{
    match turned_start(first, rest) {
        Some(start) => match eval_expr(engine, here, start.of, turns) {
            Ok(left) => match eval_expr(engine, here, &start.link.right, turns) {
                Ok(right) => match link_turned(here.around.alloc, engine, start, &left, &right) {
                    Ok(value) => eval_links(engine, here, &value, start.more, turns),
                    Err(halt) => Err(halt),
                },
                Err(halt) => Err(halt),
            },
            Err(halt) => Err(halt),
        },
        None => match eval_expr(engine, here, first, turns) {
            Ok(value) => eval_links(engine, here, &value, rest, turns),
            Err(halt) => Err(halt),
        },
    }
}

/// The value of a chain, given the value so far: applies the remaining links from the left.
#[cycle(eval)]
fn eval_links<E: Remembers>(
    engine: &mut E,
    here: &Here,
    so_far: &Value,
    rest: &[Link],
    turns: &mut u64,
) -> Result<Value, Halt>
    requires standing { AllFit (E.worker engine.old) here.now.names.now }
    requires value { Fits (E.worker engine.old) so_far.now }
    ensures ends { let w = E.worker engine.old in
        let s = state_of_here w here.now in
        let m = mean_by (around_of here.now.around) s (value_of w so_far.now) rest.now turns.old in
        let start = max (owed E.least so_far.now) (owed_by_here E.least here.now) in
        EndsWith E.least w (E.worker engine.new) turns.old turns.new start m result }
    ensures fits { IfOk result (Fits (E.worker engine.new)) }
{
    let mut all = *so_far;
    'links: for next in rest {
        let right = match eval_expr(engine, here, &next.right, turns) {
            Ok(right) => right,
            Err(halt) => return Err(halt),
        };
        all = match link(here.around.alloc, engine, next.at, next.op, &all, &right) {
            Ok(joint) => joint,
            Err(halt) => return Err(halt),
        };
    }
    Ok(all)
}

/// The values of arguments, evaluated from the left.
#[cycle(eval)]
fn eval_args<E: Remembers>(
    engine: &mut E,
    here: &Here,
    args: &[Expr],
    turns: &mut u64,
) -> Result<Vec<Value>, Halt>
    requires standing { AllFit (E.worker engine.old) here.now.names.now }
    ensures ends { let w = E.worker engine.old in
        let m = means_by (around_of here.now.around) (state_of_here w here.now) [] args.now turns.old in
        let v = E.worker engine.new in
        Ends E.least w v turns.old turns.new (owed_by_here E.least here.now) m (λ x. map (value_of v) x.items)
        (λ x. values_owe E.least x.items) result }
    ensures fits { IfOk result (λ v. AllByRecursion (Fits (E.worker engine.new)) v.items) }
{
    let mut values = Vec::new(here.around.alloc);
    'args: for arg in args {
        let value = match eval_expr(engine, here, arg, turns) {
            Ok(value) => value,
            Err(halt) => return Err(halt),
        };
        match values.push(value) {
            Ok(()) => {}
            Err(_) => return Err(Halt::Lack(Lack::NoMemory)),
        }
    }
    Ok(values)
}

/// The value of a call of a definition, given the values of its arguments.
#[cycle(eval)]
fn call<E: Remembers>(
    engine: &mut E,
    around: &Around,
    called: Called,
    values: &[Value],
    turns: &mut u64,
) -> Result<Value, Halt>
    requires standing { AllByRecursion (Fits (E.worker engine.old)) values.now }
    ensures ends { let w = E.worker engine.old in
        let calls = calls_within around.now.checked.now.items.items around.now.rank in
        let m = calls called.entry.at called.entry.name.now (map (value_of w) values.now) turns.old in
        EndsWith E.least w (E.worker engine.new) turns.old turns.new (values_owe E.least values.now) m result }
    ensures fits { IfOk result (Fits (E.worker engine.new)) }
{
    if around.rank == 0 {
        return Err(too_deep(around.alloc, called.at, called.name));
    }
    let inside = Around {
        rank: around.rank - 1,
        decls: &[],
        ..*around
    };
    match around.checked.definition(called.name.bytes()) {
        Some(Item::Function { params, body, .. }) => {
            let bound = match bound_names(around.alloc, called, params.as_slice(), values) {
                Ok(bound) => bound,
                Err(halt) => return Err(halt),
            };
            let here = Here {
                around: inside,
                names: bound.as_slice(),
            };
            eval_expr(engine, &here, body, turns)
        }
        Some(
            Item::Program {
                params,
                decls,
                body,
                result,
                ..
            },
        ) => {
            let mut bound = match bound_names(around.alloc, called, params.as_slice(), values) {
                Ok(bound) => bound,
                Err(halt) => return Err(halt),
            };
            let (decls, stmts) = (decls.as_slice(), body.as_slice());
            run_program(engine, &inside, decls, &mut bound, stmts, result, turns)
        }
        Some(Item::Command(_)) => Err(unknown(around.alloc, called.at, called.name)),
        None => Err(unknown(around.alloc, called.at, called.name)),
    }
}

/// Runs the statements of a program with these declarations, and then evaluates its result.
#[cycle(eval)]
fn run_program<E: Remembers>(
    engine: &mut E,
    around: &Around,
    decls: &[Decl],
    names: &mut Vec<(Name, Value)>,
    body: &[Stmt],
    last: &Expr,
    turns: &mut u64,
) -> Result<Value, Halt>
    requires standing { AllFit (E.worker engine.old) names.old.items }
    ensures ends { let w = E.worker engine.old in
        let a = around_with (calls_within around.now.checked.now.items.items around.now.rank) decls.now in
        let m = and_then (run_by a body.now (state_by w names.old.items) turns.old) (λ s n. mean a s last.now n) in
        EndsWith E.least w (E.worker engine.new) turns.old turns.new (names_owe E.least names.old.items) m result }
    ensures fits { IfOk result (Fits (E.worker engine.new)) }
{
    let inside = Around { decls, ..*around };
    match run_stmts(engine, &inside, names, body, turns) {
        Ok(()) => {}
        Err(halt) => return Err(halt),
    }
    let here = Here {
        around: inside,
        names: names.as_slice(),
    };
    eval_expr(engine, &here, last, turns)
}

/// Whether a test holds.
#[cycle(eval)]
fn test_of<E: Remembers>(
    engine: &mut E,
    here: &Here,
    at: Place,
    test: &Expr,
    turns: &mut u64,
) -> Result<bool, Halt>
    requires standing { AllFit (E.worker engine.old) here.now.names.now }
    ensures ends { let w = E.worker engine.old in
        let m = mean_test (around_of here.now.around) at test.now (state_of_here w here.now) turns.old in
        let v = E.worker engine.new in
        Ends E.least w v turns.old turns.new (owed_by_here E.least here.now) m (λ b. b) (λ b. 0) result }
{
    let value = match eval_expr(engine, here, test, turns) {
        Ok(value) => value,
        Err(halt) => return Err(halt),
    };
    decide(here.around.alloc, engine, at, &value)
}

/// Runs a statement.
#[cycle(eval)]
fn run_stmt<E: Remembers>(
    engine: &mut E,
    around: &Around,
    names: &mut Vec<(Name, Value)>,
    stmt: &Stmt,
    turns: &mut u64,
) -> Result<(), Halt>
    requires standing { AllFit (E.worker engine.old) names.old.items }
    ensures ends { let w = E.worker engine.old in
        let m = run (around_of around.now) stmt.now (state_by w names.old.items) turns.old in
        let v = E.worker engine.new in
        EndsRun E.least w v turns.old turns.new names.old.items names.new.items m result }
    ensures fits { OnOk result (AllFit (E.worker engine.new) names.new.items) }
{
    match stmt {
        Stmt::Set { name, value, .. } => {
            let here = Here {
                around: *around,
                names: names.as_slice(),
            };
            let own = match eval_expr(engine, &here, value, turns) {
                Ok(own) => own,
                Err(halt) => return Err(halt),
            };
            assign(around.alloc, names, name, &own)
        }
        Stmt::While { at, test, body } => {
            let again = Loop {
                at: *at,
                test,
                body: body.as_slice(),
            };
            run_while(engine, around, names, again, turns)
        }
        Stmt::If { at, test, yes, no } => {
            let here = Here {
                around: *around,
                names: names.as_slice(),
            };
            let holds = match test_of(engine, &here, *at, test, turns) {
                Ok(holds) => holds,
                Err(halt) => return Err(halt),
            };
            if holds {
                let stmts = yes.as_slice();
                run_stmts(engine, around, names, stmts, turns)
            } else {
                let stmts = no.as_slice();
                run_stmts(engine, around, names, stmts, turns)
            }
        }
    }
}

/// Runs a WHILE.
#[cycle(eval)]
fn run_while<E: Remembers>(
    engine: &mut E,
    around: &Around,
    names: &mut Vec<(Name, Value)>,
    again: Loop,
    turns: &mut u64,
) -> Result<(), Halt>
    requires standing { AllFit (E.worker engine.old) names.old.items }
    ensures ends { let w = E.worker engine.old in
        let a = around_of around.now in
        let test = mean_test a again.entry.at again.entry.test.now in
        let body = run_by a again.entry.body.now in
        let m = looped again.entry.at test body (state_by w names.old.items) turns.old in
        let v = E.worker engine.new in
        EndsRun E.least w v turns.old turns.new names.old.items names.new.items m result }
    ensures fits { OnOk result (AllFit (E.worker engine.new) names.new.items) }
{
    'turns: loop {
        let here = Here {
            around: *around,
            names: names.as_slice(),
        };
        let holds = match test_of(engine, &here, again.at, again.test, turns) {
            Ok(holds) => holds,
            Err(halt) => return Err(halt),
        };
        if !holds {
            return Ok(());
        }
        if *turns == 0 {
            return Err(Halt::Turns { at: again.at });
        }
        *turns -= 1;
        match run_stmts(engine, around, names, again.body, turns) {
            Ok(()) => {}
            Err(halt) => return Err(halt),
        }
    }
}

/// Runs statements in order.
#[cycle(eval)]
fn run_stmts<E: Remembers>(
    engine: &mut E,
    around: &Around,
    names: &mut Vec<(Name, Value)>,
    stmts: &[Stmt],
    turns: &mut u64,
) -> Result<(), Halt>
    requires standing { AllFit (E.worker engine.old) names.old.items }
    ensures ends { let w = E.worker engine.old in
        let m = run_by (around_of around.now) stmts.now (state_by w names.old.items) turns.old in
        let v = E.worker engine.new in
        EndsRun E.least w v turns.old turns.new names.old.items names.new.items m result }
    ensures fits { OnOk result (AllFit (E.worker engine.new) names.new.items) }
{
    'stmts: for stmt in stmts {
        match run_stmt(engine, around, names, stmt, turns) {
            Ok(()) => {}
            Err(halt) => return Err(halt),
        }
    }
    Ok(())
}
