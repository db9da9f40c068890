//! The faults of statements, the variables that are assigned after them, and the greatest rank of the definitions that
//! they call.
ghost use Rattle.std.specs.Prelude.{◌≡◌, ◌||◌, ◌&&◌, ℕ, List, IfOk, OnOk};
ghost use Rattle.lang_model.specs.Tokens.{same_text};
ghost use Rattle.lang_model.specs.Checking.{among, faults, target_faults, faults_of, faults_by, assigned_after, assigned_by, called_by};
ghost use Rattle.rv_types.specs.Found.{told, noted as noted_all};
ghost use Rattle.rv_types.specs.Scopes.{scope_of};

use crate::definitions::Definitions;
use crate::expression::{check_expr, greatest_called};
use crate::found::Found;
use crate::names::Names;
use crate::scope::{Scope, check_target};
use lang_model::syntax::{Expr, Name, Place, Stmt};
use rel_model::NoMemory;

/// The first fault, of those found so far and those of the assignment `name := value`. Afterwards its variable is
/// assigned.
fn check_assignment<'a>(
    scope: &Scope<'a, '_>,
    assigned: &mut Names<'a>,
    at: Place,
    name: &'a Name,
    value: &'a Expr,
    so_far: Option<Found<'a>>,
) -> Result<Option<Found<'a>>, NoMemory>
    ensures fault { IfOk result (λ r. told r ≡ noted_all (noted_all (told so_far.entry)
        (target_faults (scope_of scope.now) at name.now))
        (faults (scope_of scope.now) (among assigned.old) value.now)) }
    ensures assigned { OnOk result ((n : List ℕ) → among assigned.new n
        ≡ (same_text name.now n || among assigned.old n)) }
{
    let target = check_target(scope, at, name, so_far);
    let found = check_expr(scope, assigned, value, target);
    assigned.add(name.bytes())?;
    Ok(found)
}

/// The first fault, of those found so far and those of a statement, given the variables assigned before it. Afterwards
/// the set has those assigned after it.
#[cycle(checking)]
fn check_stmt<'a>(
    scope: &Scope<'a, '_>,
    assigned: &mut Names<'a>,
    stmt: &'a Stmt,
    so_far: Option<Found<'a>>,
) -> Result<Option<Found<'a>>, NoMemory>
    ensures fault { IfOk result (λ r. told r ≡ noted_all (told so_far.entry)
        (faults_of (scope_of scope.now) (among assigned.old) stmt.now)) }
    ensures assigned { OnOk result ((n : List ℕ) → among assigned.new n
        ≡ assigned_after (among assigned.old) stmt.now n) }
{
    match stmt {
        Stmt::Set { at, name, value } => {
            check_assignment(scope, assigned, *at, name, value, so_far)
        }
        Stmt::While { test, body, .. } => {
            let found = check_expr(scope, assigned, test, so_far);
            check_loop(scope, assigned, body.as_slice(), found)
        }
        Stmt::If { test, yes, no, .. } => {
            let found = check_expr(scope, assigned, test, so_far);
            check_choice(scope, assigned, yes.as_slice(), no.as_slice(), found)
        }
    }
}

/// The first fault, of those found so far and those of statements, given the variables assigned before them. Afterwards
/// the set has those assigned after them.
#[cycle(checking)]
pub fn check_stmts<'a>(
    scope: &Scope<'a, '_>,
    assigned: &mut Names<'a>,
    stmts: &'a [Stmt],
    so_far: Option<Found<'a>>,
) -> Result<Option<Found<'a>>, NoMemory>
    ensures fault { IfOk result (λ r. told r ≡ noted_all (told so_far.entry)
        (faults_by (scope_of scope.now) (among assigned.old) stmts.now)) }
    ensures assigned { OnOk result ((n : List ℕ) → among assigned.new n
        ≡ assigned_by (among assigned.old) stmts.now n) }
{
    let mut found = so_far;
    'each: for stmt in stmts {
        found = check_stmt(scope, assigned, stmt, found)?;
    }
    Ok(found)
}

/// The first fault, of those found so far and those of the body of a WHILE. What it assigns does not count after it.
#[cycle(checking)]
fn check_loop<'a>(
    scope: &Scope<'a, '_>,
    assigned: &Names<'a>,
    body: &'a [Stmt],
    so_far: Option<Found<'a>>,
) -> Result<Option<Found<'a>>, NoMemory>
    ensures { IfOk result (λ r. told r ≡ noted_all (told so_far.entry)
        (faults_by (scope_of scope.now) (among assigned.now) body.now)) }
{
    let mut within = assigned.copied()?;
    check_stmts(scope, &mut within, body, so_far)
}

/// The first fault, of those found so far and those of the two branches of an IF. Afterwards the variables that both
/// assign are assigned.
#[cycle(checking)]
fn check_choice<'a>(
    scope: &Scope<'a, '_>,
    assigned: &mut Names<'a>,
    yes: &'a [Stmt],
    no: &'a [Stmt],
    so_far: Option<Found<'a>>,
) -> Result<Option<Found<'a>>, NoMemory>
    ensures fault { IfOk result (λ r. told r ≡ noted_all (noted_all (told so_far.entry)
        (faults_by (scope_of scope.now) (among assigned.old) yes.now))
        (faults_by (scope_of scope.now) (among assigned.old) no.now)) }
    ensures assigned { OnOk result ((n : List ℕ) → among assigned.new n ≡ (among assigned.old n
        || (assigned_by (among assigned.old) yes.now n && assigned_by (among assigned.old) no.now n))) }
{
    let mut first = assigned.copied()?;
    let found = check_stmts(scope, &mut first, yes, so_far)?;
    check_second(scope, assigned, &first, no, found)
}

/// The first fault, of those found so far and those of the second branch of an IF, given the variables assigned after
/// its first branch. Afterwards the variables that both assign are assigned.
#[cycle(checking)]
fn check_second<'a>(
    scope: &Scope<'a, '_>,
    assigned: &mut Names<'a>,
    first: &Names<'a>,
    no: &'a [Stmt],
    so_far: Option<Found<'a>>,
) -> Result<Option<Found<'a>>, NoMemory>
    ensures fault { IfOk result (λ r. told r ≡ noted_all (told so_far.entry)
        (faults_by (scope_of scope.now) (among assigned.old) no.now)) }
    ensures assigned { OnOk result ((n : List ℕ) → among assigned.new n ≡ (among assigned.old n
        || (among first.now n && assigned_by (among assigned.old) no.now n))) }
{
    let mut second = assigned.copied()?;
    let found = check_stmts(scope, &mut second, no, so_far)?;
    assigned.add_shared(first, &second)?;
    Ok(found)
}

/// The greatest rank of the definitions that a statement calls; 0 if it calls none.
pub fn greatest_called_by(earlier: &Definitions, stmt: &Stmt) -> usize
    ensures { result ≡ called_by earlier.now stmt.now }
{
    match stmt {
        Stmt::Set { value, .. } => greatest_called(earlier, value),
        Stmt::While { test, body, .. } => {
            let mut most = greatest_called(earlier, test);
            'body: for inner in body.as_slice() {
                most = most.max(greatest_called_by(earlier, inner));
            }
            most
        }
        Stmt::If { test, yes, no, .. } => {
            let mut most = greatest_called(earlier, test);
            'yes: for then in yes.as_slice() {
                most = most.max(greatest_called_by(earlier, then));
            }
            'no: for other in no.as_slice() {
                most = most.max(greatest_called_by(earlier, other));
            }
            most
        }
    }
}
