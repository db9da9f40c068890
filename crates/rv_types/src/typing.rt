//! The walk over expressions, calls and statements that finds types. It ends at the first misfit.
ghost use Rattle.std.specs.Prelude.{[]};
ghost use Rattle.lang_model.specs.Shape.{passing, shape, shape_test, types_of_calls, typed_behind, typed_by};
ghost use Rattle.rv_types.specs.Shaping.{types_of, shapes_by, shape_by, Answers};
ghost use Rattle.rv_types.specs.Around.{around_of};

use crate::bases::base_call;
use crate::checked::Checked;
use crate::found::{Cause, Spelled};
use crate::misfits::misnamed;
use crate::operators::{link, pair, test, turned};
use crate::typing_steps::{assign, inject, type_of_name, with_arguments};
use lang_model::faults::{StaticShape, TypeFault};
use lang_model::syntax::{Decl, Expr, Item, Link, Name, Place, Stmt};
use std::alloc::Global;

/// The surroundings of an expression: the script, how many definitions may still nest from here, and the declarations
/// of its program.
#[derive(Clone, Copy)]
pub struct Around<'a> {
    pub checked: &'a Checked,
    pub rank: u32,
    pub decls: &'a [Decl],
}

/// The type of an expression.
#[cycle(typing)]
pub fn type_of_expr(
    alloc: Global,
    around: &Around,
    names: &[(Name, StaticShape)],
    expr: &Expr,
) -> Result<StaticShape, TypeFault>
    ensures { Answers (shape (around_of around.now) (types_of names.now) expr.now) (λ s. s) result }
{
    match expr {
        Expr::Ref { at, name } => type_of_name(alloc, names, *at, name),
        Expr::Call { at, name, args } => {
            match types_of_args(alloc, around, names, args.as_slice()) {
                Ok(given) => type_of_call(alloc, around, *at, name, given.as_slice()),
                Err(fault) => Err(fault),
            }
        }
        Expr::Base { at, base, args } => {
            match types_of_args(alloc, around, names, args.as_slice()) {
                Ok(given) => base_call(alloc, *at, *base, given.as_slice()),
                Err(fault) => Err(fault),
            }
        }
        Expr::Inject { at, base, domain } => {
            inject(alloc, around.decls, names, *at, *base, domain)
        }
        Expr::Pair { at, left, right } => match type_of_expr(alloc, around, names, left) {
            Ok(first) => match type_of_expr(alloc, around, names, right) {
                Ok(second) => pair(alloc, *at, first, second),
                Err(fault) => Err(fault),
            },
            Err(fault) => Err(fault),
        },
        Expr::Minus { of, .. } => type_of_expr(alloc, around, names, of),
        Expr::Turned { of, times, .. } => match type_of_expr(alloc, around, names, of) {
            Ok(shape) => Ok(turned(shape, *times)),
            Err(fault) => Err(fault),
        },
        Expr::Chain { first, rest } => match type_of_expr(alloc, around, names, first) {
            Ok(shape) => type_of_chain(alloc, around, names, shape, rest.as_slice()),
            Err(fault) => Err(fault),
        },
    }
}

/// The type of a chain, given the type of its first operand: links from left to right.
#[cycle(typing)]
fn type_of_chain(
    alloc: Global,
    around: &Around,
    names: &[(Name, StaticShape)],
    first: StaticShape,
    rest: &[Link],
) -> Result<StaticShape, TypeFault>
    ensures { Answers (shape_by (around_of around.now) (types_of names.now) first rest.now) (λ s. s) result }
{
    let mut all = first;
    'links: for next in rest {
        let right = match type_of_expr(alloc, around, names, &next.right) {
            Ok(right) => right,
            Err(fault) => return Err(fault),
        };
        all = match link(alloc, next.at, next.op, all, right) {
            Ok(joint) => joint,
            Err(fault) => return Err(fault),
        };
    }
    Ok(all)
}

/// The types of arguments, from left to right.
#[cycle(typing)]
fn types_of_args(
    alloc: Global,
    around: &Around,
    names: &[(Name, StaticShape)],
    args: &[Expr],
) -> Result<Vec<StaticShape>, TypeFault>
    ensures { Answers (shapes_by (around_of around.now) (types_of names.now) [] args.now) (λ v. v.items) result }
{
    let mut given = Vec::new(alloc);
    'each: for arg in args {
        let shape = match type_of_expr(alloc, around, names, arg) {
            Ok(shape) => shape,
            Err(fault) => return Err(fault),
        };
        match given.push(shape) {
            Ok(()) => {}
            Err(_) => return Err(TypeFault::NoMemory),
        }
    }
    Ok(given)
}

/// The type of a call of a definition.
#[cycle(typing)]
fn type_of_call(
    alloc: Global,
    around: &Around,
    at: Place,
    name: &Name,
    given: &[StaticShape],
) -> Result<StaticShape, TypeFault>
    ensures { let items = around.now.checked.now.items.items in
        Answers (types_of_calls items around.now.rank at name.now given.now) (λ s. s) result }
{
    if around.rank == 0 {
        return Err(misnamed(alloc, at, Cause::Rank, Spelled::Name(name)));
    }
    let rank = around.rank - 1;
    match around.checked.definition(name.bytes()) {
        Some(Item::Function { params, body, .. }) => {
            let inside = Around {
                checked: around.checked,
                rank,
                decls: &[],
            };
            match with_arguments(alloc, at, name, params.as_slice(), given) {
                Ok(names) => type_of_expr(alloc, &inside, names.as_slice(), body),
                Err(fault) => Err(fault),
            }
        }
        Some(
            Item::Program {
                params,
                decls,
                body,
                result,
                ..
            },
        ) => {
            let inside = Around {
                checked: around.checked,
                rank,
                decls: decls.as_slice(),
            };
            match with_arguments(alloc, at, name, params.as_slice(), given) {
                Ok(names) => type_of_program(alloc, &inside, names, body.as_slice(), result),
                Err(fault) => Err(fault),
            }
        }
        Some(Item::Command(_)) => Err(misnamed(alloc, at, Cause::Unknown, Spelled::Name(name))),
        None => Err(misnamed(alloc, at, Cause::Unknown, Spelled::Name(name))),
    }
}

/// The type of a program's result after its body, given the types of its parameters.
#[cycle(typing)]
fn type_of_program(
    alloc: Global,
    inside: &Around,
    parameters: Vec<(Name, StaticShape)>,
    body: &[Stmt],
    value: &Expr,
) -> Result<StaticShape, TypeFault>
    ensures { let A = around_of inside.now in
        let behind = typed_by A body.now (types_of parameters.items) in
        Answers (passing behind (λ T. shape A T value.now)) (λ s. s) result }
{
    let mut names = parameters;
    match type_stmts(alloc, inside, &mut names, body) {
        Ok(()) => type_of_expr(alloc, inside, names.as_slice(), value),
        Err(fault) => Err(fault),
    }
}

/// The type of the test of a WHILE or an IF.
#[cycle(typing)]
fn type_of_test(
    alloc: Global,
    around: &Around,
    names: &[(Name, StaticShape)],
    at: Place,
    expr: &Expr,
) -> Result<StaticShape, TypeFault>
    ensures { Answers (shape_test (around_of around.now) at expr.now (types_of names.now)) (λ s. s) result }
{
    match type_of_expr(alloc, around, names, expr) {
        Ok(shape) => test(at, shape),
        Err(fault) => Err(fault),
    }
}

/// Types a statement. Afterwards the variables have the types that it gives them.
#[cycle(typing)]
fn type_stmt(
    alloc: Global,
    around: &Around,
    names: &mut Vec<(Name, StaticShape)>,
    stmt: &Stmt,
) -> Result<(), TypeFault>
    ensures { let typed = typed_behind (around_of around.now) stmt.now (types_of names.old.items) in
        Answers typed (λ _. types_of names.new.items) result }
{
    match stmt {
        Stmt::Set { at, name, value } => {
            match type_of_expr(alloc, around, names.as_slice(), value) {
                Ok(shape) => assign(alloc, names, *at, name, shape),
                Err(fault) => Err(fault),
            }
        }
        Stmt::While { at, test, body } => {
            match type_of_test(alloc, around, names.as_slice(), *at, test) {
                Ok(_) => type_stmts(alloc, around, names, body.as_slice()),
                Err(fault) => Err(fault),
            }
        }
        Stmt::If { at, test, yes, no } => {
            match type_of_test(alloc, around, names.as_slice(), *at, test) {
                Ok(_) => match type_stmts(alloc, around, names, yes.as_slice()) {
                    Ok(()) => type_stmts(alloc, around, names, no.as_slice()),
                    Err(fault) => Err(fault),
                },
                Err(fault) => Err(fault),
            }
        }
    }
}

/// Types statements in order.
#[cycle(typing)]
fn type_stmts(
    alloc: Global,
    around: &Around,
    names: &mut Vec<(Name, StaticShape)>,
    stmts: &[Stmt],
) -> Result<(), TypeFault>
    ensures { let typed = typed_by (around_of around.now) stmts.now (types_of names.old.items) in
        Answers typed (λ _. types_of names.new.items) result }
{
    'stmts: for stmt in stmts {
        match type_stmt(alloc, around, names, stmt) {
            Ok(()) => {}
            Err(fault) => return Err(fault),
        }
    }
    Ok(())
}
