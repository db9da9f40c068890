//! The faults of an item, given the definitions of earlier ones, and what it defines.
ghost use Rattle.std.specs.Prelude.{◌≡◌, ◌-◌, ◌^◌, true, false, ℕ, List, IfOk, OnOk, OnErr, option_copied};
ghost use Rattle.lang_model.specs.Checking.{among, faults_by, assigned_by, called_by_all, rank_of as rank_of_item, item_faults, known_with, definition_of, head_faults, decl_faults, faults, function_scope, program_scope as scope_of_program, no_name, let_faults, command_faults};
ghost use Rattle.rv_types.specs.Found.{told, noted as noted_all};
ghost use Rattle.rv_types.specs.Scopes.{scope_of, scope_behind, with_parameters, OfProgram};
ghost use Rattle.rv_types.specs.Defining.{is_definition};
ghost use Rattle.rv_types.specs.Items.{value_of_command, lets_of_command, called_by_item, RanksWithin};

use crate::declarations::{add_domains, add_variables, check_decls};
use crate::definitions::{Definitions, Summary};
use crate::expression::{check_expr, greatest_called};
use crate::found::Found;
use crate::head::{Head, check_head};
use crate::names::Names;
use crate::scope::Scope;
use crate::statement::{check_stmts, greatest_called_by};
use lang_model::syntax::{Command, Decl, Expr, Item, Let, Stmt};
use rel_model::NoMemory;
use std::alloc::Global;

/// The greatest rank of the definitions that statements call; 0 if they call none.
fn greatest_called_by_all(earlier: &Definitions, stmts: &[Stmt]) -> usize
    ensures { result ≡ called_by_all earlier.now stmts.now }
{
    let mut most: usize = 0;
    'each: for stmt in stmts {
        most = most.max(greatest_called_by(earlier, stmt));
    }
    most
}

/// The greatest rank of the definitions that an item calls; 0 if it calls none.
fn greatest_called_by_item(earlier: &Definitions, item: &Item) -> usize
    ensures { result ≡ called_by_item earlier.now item.now }
{
    match item {
        Item::Function { body, .. } => greatest_called(earlier, body),
        Item::Program { body, result, .. } => greatest_called_by_all(earlier, body.as_slice()).max(
            greatest_called(earlier, result),
        ),
        Item::Command(_) => 0,
    }
}

/// The expression of a command, if it has one.
fn value_of(command: &Command) -> Option<&Expr>
    ensures { option_copied result ≡ value_of_command command.now }
{
    match command {
        Command::Let { value, .. } => Some(value),
        Command::Print { value } => Some(value),
        Command::List { value } => Some(value),
        Command::Count { value } => Some(value),
        Command::Typed { value } => Some(value),
        Command::At { value, .. } => Some(value),
        Command::Save { value, .. } => Some(value),
        Command::Explain { value } => Some(value),
        _ => None,
    }
}

/// The assignments of a command, if it is a block.
fn lets_of(command: &Command) -> Option<&[Let]>
    ensures { option_copied result ≡ lets_of_command command.now }
{
    match command {
        Command::Atomic { lets } => Some(lets.as_slice()),
        _ => None,
    }
}

/// The rank of the definition of an item; 0 for a command.
#[tactic(auto, unfolding(lang_model::specs::Checking::rank_of))]
pub fn rank_of(earlier: &Definitions, item: &Item) -> usize
    requires { RanksWithin (2 ^ 64 - 2) earlier.now }
    ensures { result ≡ rank_of_item earlier.now item.now }
{
    match item {
        Item::Command(_) => 0,
        _ => greatest_called_by_item(earlier, item) + 1,
    }
}

/// The faults of an expression before which nothing is assigned.
fn check_alone<'a>(
    alloc: Global,
    scope: &Scope<'a, '_>,
    expr: &'a Expr,
    so_far: Option<Found<'a>>,
) -> Option<Found<'a>>
    ensures { told result ≡ noted_all (told so_far.entry) (faults (scope_of scope.now) no_name expr.now) }
{
    let assigned = Names::new(alloc);
    check_expr(scope, &assigned, expr, so_far)
}

/// The faults of the expressions of a block in order.
fn check_lets<'a>(
    alloc: Global,
    scope: &Scope<'a, '_>,
    lets: &'a [Let],
    so_far: Option<Found<'a>>,
) -> Option<Found<'a>>
    ensures { told result ≡ noted_all (told so_far.entry) (let_faults (scope_of scope.now) lets.now) }
{
    let mut found = so_far;
    'lets: for assignment in lets {
        found = check_alone(alloc, scope, &assignment.value, found);
    }
    found
}

/// The faults of a function's head and body, starting from a scope without parameters. Afterwards the scope has the
/// function's.
fn check_head_and_value<'a>(
    alloc: Global,
    scope: &mut Scope<'a, '_>,
    head: Head<'a>,
    body: &'a Expr,
    so_far: Option<Found<'a>>,
) -> Result<Option<Found<'a>>, NoMemory>
    requires { scope_of scope.old ≡ scope_behind false scope.old.earlier.now }
    ensures { IfOk result (λ r. told r ≡ noted_all (noted_all (told so_far.entry) (head_faults
        scope.old.earlier.now head.entry.at head.entry.name.now head.entry.params.now head.entry.rank))
        (faults (function_scope scope.old.earlier.now head.entry.params.now) no_name body.now)) }
{
    let found = check_head(scope.earlier, head, &mut scope.parameters, so_far)?;
    Ok(check_alone(alloc, scope, body, found))
}

/// Adds to a scope without declarations what declarations declare.
fn declare<'a>(scope: &mut Scope<'a, '_>, decls: &'a [Decl]) -> Result<(), NoMemory>
    requires { scope_of scope.old ≡ with_parameters scope.old.parameters (scope_behind false scope.old.earlier.now) }
    ensures { OnOk result (OfProgram scope.old.earlier.now scope.old.parameters decls.now (scope_of scope.new)) }
{
    add_variables(&mut scope.variables, decls)?;
    add_domains(&mut scope.products, false, decls)?;
    add_domains(&mut scope.sums, true, decls)?;
    Ok(())
}

/// The faults of a program's head and declarations, starting from an empty scope. Afterwards the scope has their names.
fn check_declared<'a>(
    scope: &mut Scope<'a, '_>,
    head: Head<'a>,
    decls: &'a [Decl],
    so_far: Option<Found<'a>>,
) -> Result<Option<Found<'a>>, NoMemory>
    requires { scope_of scope.old ≡ scope_behind false scope.old.earlier.now }
    ensures fault { IfOk result (λ r. told r ≡ noted_all (noted_all (told so_far.entry) (head_faults
        scope.old.earlier.now head.entry.at head.entry.name.now head.entry.params.now head.entry.rank))
        (decl_faults head.entry.params.now head.entry.params.now decls.now)) }
    ensures parameters { OnOk result ((n : List ℕ) → among scope.new.parameters n ≡ among head.entry.params.now n) }
    ensures scope { OnOk result (OfProgram scope.old.earlier.now scope.new.parameters decls.now (scope_of scope.new)) }
{
    let named = check_head(scope.earlier, head, &mut scope.parameters, so_far)?;
    let found = check_decls(&scope.parameters, decls, named)?;
    declare(scope, decls)?;
    Ok(found)
}

/// The faults of a program's body and of its result.
fn check_body<'a>(
    alloc: Global,
    scope: &Scope<'a, '_>,
    body: &'a [Stmt],
    value: &'a Expr,
    so_far: Option<Found<'a>>,
) -> Result<Option<Found<'a>>, NoMemory>
    ensures { IfOk result (λ r. told r ≡ noted_all (noted_all (told so_far.entry)
        (faults_by (scope_of scope.now) no_name body.now))
        (faults (scope_of scope.now) (assigned_by no_name body.now) value.now)) }
{
    let mut assigned = Names::new(alloc);
    let found = check_stmts(scope, &mut assigned, body, so_far)?;
    Ok(check_expr(scope, &assigned, value, found))
}

/// The faults of a program's parts in order, starting from an empty scope. Afterwards the scope has the program's
/// names.
fn check_parts<'a>(
    alloc: Global,
    scope: &mut Scope<'a, '_>,
    head: Head<'a>,
    decls: &'a [Decl],
    body: &'a [Stmt],
    value: &'a Expr,
    so_far: Option<Found<'a>>,
) -> Result<Option<Found<'a>>, NoMemory>
    requires { scope_of scope.old ≡ scope_behind false scope.old.earlier.now }
    ensures { IfOk result (λ r. let E = scope.old.earlier.now in
        let inside = scope_of_program E head.entry.params.now decls.now in told r
        ≡ noted_all (noted_all (noted_all (noted_all (told so_far.entry)
        (head_faults E head.entry.at head.entry.name.now head.entry.params.now head.entry.rank))
        (decl_faults head.entry.params.now head.entry.params.now decls.now)) (faults_by inside no_name body.now))
        (faults inside (assigned_by no_name body.now) value.now)) }
{
    let declared = check_declared(scope, head, decls, so_far)?;
    let found = check_body(alloc, scope, body, value, declared)?;
    Ok(found)
}

/// The faults of a command, in an empty scope.
fn check_command<'a>(
    alloc: Global,
    scope: &Scope<'a, '_>,
    command: &'a Command,
    so_far: Option<Found<'a>>,
) -> Option<Found<'a>>
    requires { scope_of scope.now ≡ scope_behind true scope.now.earlier.now }
    ensures { told result ≡ noted_all (told so_far.entry) (command_faults scope.now.earlier.now command.now) }
{
    match lets_of(command) {
        Some(lets) => check_lets(alloc, scope, lets, so_far),
        None => match value_of(command) {
            Some(value) => check_alone(alloc, scope, value, so_far),
            None => so_far,
        },
    }
}

/// The first fault, of those found so far and those of an item of this rank, starting from an empty scope. Afterwards
/// the scope has the item's names.
#[tactic(auto, unfolding(lang_model::specs::Checking::item_faults))]
fn check_in<'a>(
    alloc: Global,
    scope: &mut Scope<'a, '_>,
    item: &'a Item,
    rank: usize,
    so_far: Option<Found<'a>>,
) -> Result<Option<Found<'a>>, NoMemory>
    requires bare { scope_of scope.old ≡ scope_behind false scope.old.earlier.now }
    requires rank { rank ≡ rank_of_item scope.old.earlier.now item.now }
    ensures fault { IfOk result (λ r. told r ≡ noted_all (told so_far.entry)
        (item_faults scope.old.earlier.now item.now)) }
    ensures memory { OnErr result (is_definition item.now ≡ true) }
{
    match item {
        Item::Function {
            at,
            name,
            params,
            body,
        } => {
            let head = Head::new(*at, name, params.as_slice(), rank);
            check_head_and_value(alloc, scope, head, body, so_far)
        }
        Item::Program {
            at,
            name,
            params,
            decls,
            body,
            result,
        } => {
            let head = Head::new(*at, name, params.as_slice(), rank);
            check_parts(
                alloc,
                scope,
                head,
                decls.as_slice(),
                body.as_slice(),
                result,
                so_far,
            )
        }
        Item::Command(command) => {
            scope.is_command = true;
            Ok(check_command(alloc, scope, command, so_far))
        }
    }
}

/// The first fault, of those found so far and those of an item of this rank. A command takes no memory.
pub fn check_item<'a>(
    alloc: Global,
    earlier: &Definitions,
    item: &'a Item,
    rank: usize,
    so_far: Option<Found<'a>>,
) -> Result<Option<Found<'a>>, NoMemory>
    requires { rank ≡ rank_of_item earlier.now item.now }
    ensures fault { IfOk result (λ r. told r ≡ noted_all (told so_far.entry) (item_faults earlier.now item.now)) }
    ensures memory { OnErr result (is_definition item.now ≡ true) }
{
    let mut scope = Scope::new(alloc, earlier);
    check_in(alloc, &mut scope, item, rank, so_far)
}

/// The definitions up to and including an item of this rank. A command takes no memory.
#[tactic(auto, unfolding(lang_model::specs::Checking::known_with))]
pub fn define(
    alloc: Global,
    definitions: &mut Definitions,
    item: &Item,
    rank: usize,
) -> Result<(), NoMemory>
    requires { rank ≡ rank_of_item definitions.old item.now }
    ensures known { OnOk result ((n : List ℕ) → definition_of definitions.new n
        ≡ definition_of (known_with definitions.old item.now) n) }
    ensures memory { OnErr result (is_definition item.now ≡ true) }
{
    match item {
        Item::Function { name, params, .. } => {
            let takes = params.as_slice().len();
            definitions.add(alloc, name.bytes(), Summary { takes, rank })
        }
        Item::Program { name, params, .. } => {
            let takes = params.as_slice().len();
            definitions.add(alloc, name.bytes(), Summary { takes, rank })
        }
        Item::Command(_) => Ok(()),
    }
}
