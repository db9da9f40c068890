//! The slow evaluator: the meaning of expressions, statements and calls, on lists of pairs.
//!
//! Each function takes a number of steps, one less than its caller's, which limits how deep calls nest. It ends the
//! test if none is left.
use crate::listed::Listed;
use crate::named::{Named, set};
use crate::operators::{base_call, complement, domain_call, link, pair, transposed, type_of};
use crate::scope::{bound, definition, factors, less, value_of_name};
use lang_model::faults::TypeFault;
use lang_model::syntax::{Base, Decl, Expr, Item, Link, Name, Place, Stmt};
use rv_eval::Refused;
use std::alloc::Global;
use std::process::Abort;

/// What an expression stands within: the items of the script, and the declarations of the program.
#[derive(Clone, Copy)]
struct Within<'a> {
    alloc: Global,
    items: &'a [Item],
    decls: &'a [Decl],
}

/// The value of an expression.
#[cycle(slow)]
fn value_of<R: Abort>(
    rt: &R,
    within: Within<'_>,
    names: &[Named],
    expr: &Expr,
    turns: &mut u64,
    steps: u32,
) -> Result<Listed, Refused> {
    let left = less(rt, steps);
    match expr {
        Expr::Ref { at, name } => value_of_name(rt, within.alloc, names, *at, name),
        Expr::Call { name, args, .. } => {
            value_of_call(rt, within, names, name, args.as_slice(), turns, left)
        }
        Expr::Base { at, base, args } => {
            let args = args.as_slice();
            value_of_base(rt, within, names, *at, *base, args, turns, left)
        }
        Expr::Inject { at, base, domain } => {
            let (x, y) = factors(rt, within.decls, names, domain.bytes());
            domain_call(rt, within.alloc, *at, *base, x, y)
        }
        Expr::Pair {
            at,
            left: first,
            right: second,
        } => value_of_pair(rt, within, names, *at, first, second, turns, left),
        Expr::Minus { of, .. } => complement_of(rt, within, names, of, turns, left),
        Expr::Turned { of, times, .. } => { turned(rt, within, names, of, *times, turns, left) }
        Expr::Chain { first, rest } => {
            value_of_chain(rt, within, names, first, rest.as_slice(), turns, left)
        }
    }
}

/// The value of a call, given its arguments.
#[cycle(slow)]
fn value_of_call<R: Abort>(
    rt: &R,
    within: Within<'_>,
    names: &[Named],
    name: &Name,
    args: &[Expr],
    turns: &mut u64,
    steps: u32,
) -> Result<Listed, Refused> {
    let left = less(rt, steps);
    let values = values_of(rt, within, names, args, turns, left)?;
    called(rt, within, name, values.as_slice(), turns, left)
}

/// The value of a base call, given its arguments.
#[cycle(slow)]
fn value_of_base<R: Abort>(
    rt: &R,
    within: Within<'_>,
    names: &[Named],
    at: Place,
    base: Base,
    args: &[Expr],
    turns: &mut u64,
    steps: u32,
) -> Result<Listed, Refused> {
    let left = less(rt, steps);
    let values = values_of(rt, within, names, args, turns, left)?;
    base_call(rt, within.alloc, at, base, values.as_slice())
}

/// The value of a pairing.
#[cycle(slow)]
fn value_of_pair<R: Abort>(
    rt: &R,
    within: Within<'_>,
    names: &[Named],
    at: Place,
    first: &Expr,
    second: &Expr,
    turns: &mut u64,
    steps: u32,
) -> Result<Listed, Refused> {
    let left = less(rt, steps);
    let r = value_of(rt, within, names, first, turns, left)?;
    let s = value_of(rt, within, names, second, turns, left)?;
    pair(rt, within.alloc, at, &r, &s)
}

/// The complement of an expression.
#[cycle(slow)]
fn complement_of<R: Abort>(
    rt: &R,
    within: Within<'_>,
    names: &[Named],
    of: &Expr,
    turns: &mut u64,
    steps: u32,
) -> Result<Listed, Refused> {
    let left = less(rt, steps);
    let r = value_of(rt, within, names, of, turns, left)?;
    Ok(complement(rt, within.alloc, &r))
}

/// The value of an expression transposed `times` times.
#[cycle(slow)]
fn turned<R: Abort>(
    rt: &R,
    within: Within<'_>,
    names: &[Named],
    of: &Expr,
    times: u32,
    turns: &mut u64,
    steps: u32,
) -> Result<Listed, Refused> {
    let left = less(rt, steps);
    let mut r = value_of(rt, within, names, of, turns, left)?;
    'times: for _ in 0..times {
        r = transposed(rt, within.alloc, &r);
    }
    Ok(r)
}

/// The value of a chain of operators, evaluated from the left.
#[cycle(slow)]
fn value_of_chain<R: Abort>(
    rt: &R,
    within: Within<'_>,
    names: &[Named],
    first: &Expr,
    rest: &[Link],
    turns: &mut u64,
    steps: u32,
) -> Result<Listed, Refused> {
    let left = less(rt, steps);
    let mut r = value_of(rt, within, names, first, turns, left)?;
    'links: for next in rest {
        let s = value_of(rt, within, names, &next.right, turns, left)?;
        r = link(rt, within.alloc, next.at, next.op, &r, &s)?;
    }
    Ok(r)
}

/// The values of arguments, evaluated from the left.
#[cycle(slow)]
fn values_of<R: Abort>(
    rt: &R,
    within: Within<'_>,
    names: &[Named],
    args: &[Expr],
    turns: &mut u64,
    steps: u32,
) -> Result<Vec<Listed>, Refused> {
    let left = less(rt, steps);
    let mut values = Vec::new(within.alloc);
    'args: for arg in args {
        let value = value_of(rt, within, names, arg, turns, left)?;
        if values.push(value).is_err() {
            panic!(rt; "no memory");
        }
    }
    Ok(values)
}

/// The value of a call of a definition.
#[cycle(slow)]
fn called<R: Abort>(
    rt: &R,
    within: Within<'_>,
    name: &Name,
    values: &[Listed],
    turns: &mut u64,
    steps: u32,
) -> Result<Listed, Refused> {
    let left = less(rt, steps);
    let alloc = within.alloc;
    match definition(within.items, name.bytes()) {
        Some(Item::Function { params, body, .. }) => {
            let names = bound(rt, alloc, params.as_slice(), values);
            let within = Within {
                alloc,
                items: within.items,
                decls: &[],
            };
            value_of(rt, within, names.as_slice(), body, turns, left)
        }
        Some(
            Item::Program {
                params,
                decls,
                body,
                result,
                ..
            },
        ) => {
            let mut names = bound(rt, alloc, params.as_slice(), values);
            let within = Within {
                alloc,
                items: within.items,
                decls: decls.as_slice(),
            };
            came_to(rt, within, &mut names, body.as_slice(), result, turns, left)
        }
        _ => panic!(rt; "no definition"),
    }
}

/// The result of a program, after its statements.
#[cycle(slow)]
fn came_to<R: Abort>(
    rt: &R,
    within: Within<'_>,
    names: &mut Vec<Named>,
    body: &[Stmt],
    value: &Expr,
    turns: &mut u64,
    steps: u32,
) -> Result<Listed, Refused> {
    let left = less(rt, steps);
    run_all(rt, within, names, body, turns, left)?;
    value_of(rt, within, names.as_slice(), value, turns, left)
}

/// Whether a test holds.
#[cycle(slow)]
fn holds<R: Abort>(
    rt: &R,
    within: Within<'_>,
    names: &[Named],
    at: Place,
    test: &Expr,
    turns: &mut u64,
    steps: u32,
) -> Result<bool, Refused> {
    let left = less(rt, steps);
    let value = value_of(rt, within, names, test, turns, left)?;
    if value.rows == 1 && value.cols == 1 {
        Ok(value.has(0, 0))
    } else {
        Err(Refused::Ill(TypeFault::NotTest {
            at,
            shape: type_of(&value),
        }))
    }
}

/// Runs a statement.
#[cycle(slow)]
fn run<R: Abort>(
    rt: &R,
    within: Within<'_>,
    names: &mut Vec<Named>,
    stmt: &Stmt,
    turns: &mut u64,
    steps: u32,
) -> Result<(), Refused> {
    let left = less(rt, steps);
    match stmt {
        Stmt::Set { name, value, .. } => { run_set(rt, within, names, name, value, turns, left) }
        Stmt::While { at, test, body } => {
            run_while(rt, within, names, *at, test, body.as_slice(), turns, left)
        }
        Stmt::If { at, test, yes, no } => {
            let parts = (yes.as_slice(), no.as_slice());
            run_if(rt, within, names, *at, test, parts, turns, left)
        }
    }
}

/// Runs an assignment.
#[cycle(slow)]
fn run_set<R: Abort>(
    rt: &R,
    within: Within<'_>,
    names: &mut Vec<Named>,
    name: &Name,
    value: &Expr,
    turns: &mut u64,
    steps: u32,
) -> Result<(), Refused> {
    let left = less(rt, steps);
    let r = value_of(rt, within, names.as_slice(), value, turns, left)?;
    set(rt, within.alloc, names, name.bytes(), r);
    Ok(())
}

/// Runs a loop. In the tests no loop takes 1000 turns.
#[cycle(slow)]
fn run_while<R: Abort>(
    rt: &R,
    within: Within<'_>,
    names: &mut Vec<Named>,
    at: Place,
    test: &Expr,
    body: &[Stmt],
    turns: &mut u64,
    steps: u32,
) -> Result<(), Refused> {
    let left = less(rt, steps);
    'turns: for _ in 0..1000u32 {
        if !holds(rt, within, names.as_slice(), at, test, turns, left)? {
            return Ok(());
        }
        if *turns == 0 {
            return Err(Refused::Turns { at, limit: 0 });
        }
        *turns -= 1;
        run_all(rt, within, names, body, turns, left)?;
    }
    panic!(rt; "too many turns")
}

/// Runs the first of two parts if a test holds, and otherwise the second.
#[cycle(slow)]
fn run_if<R: Abort>(
    rt: &R,
    within: Within<'_>,
    names: &mut Vec<Named>,
    at: Place,
    test: &Expr,
    parts: (&[Stmt], &[Stmt]),
    turns: &mut u64,
    steps: u32,
) -> Result<(), Refused> {
    let left = less(rt, steps);
    let yes = holds(rt, within, names.as_slice(), at, test, turns, left)?;
    let part = if yes { parts.0 } else { parts.1 };
    run_all(rt, within, names, part, turns, left)
}

/// Runs statements in order.
#[cycle(slow)]
fn run_all<R: Abort>(
    rt: &R,
    within: Within<'_>,
    names: &mut Vec<Named>,
    stmts: &[Stmt],
    turns: &mut u64,
    steps: u32,
) -> Result<(), Refused> {
    let left = less(rt, steps);
    'stmts: for stmt in stmts {
        run(rt, within, names, stmt, turns, left)?;
    }
    Ok(())
}

/// The value of a command's expression, with this many turns.
pub(crate) fn evaluated<R: Abort>(
    rt: &R,
    alloc: Global,
    items: &[Item],
    names: &[Named],
    expr: &Expr,
    turns: u64,
) -> Result<Listed, Refused> {
    let within = Within {
        alloc,
        items,
        decls: &[],
    };
    let mut left = turns;
    match value_of(rt, within, names, expr, &mut left, 10_000) {
        Err(Refused::Turns { at, .. }) => Err(Refused::Turns { at, limit: turns }),
        other => other,
    }
}
