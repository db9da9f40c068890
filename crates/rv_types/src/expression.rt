//! The faults of an expression, and the greatest rank of the definitions that it calls.
ghost use Rattle.std.specs.Prelude.{◌≡◌};
ghost use Rattle.lang_model.specs.Checking.{among, faults, called, rank_named as rank_of_name};
ghost use Rattle.rv_types.specs.Found.{told, noted as noted_all};
ghost use Rattle.rv_types.specs.Scopes.{scope_of};

use crate::definitions::Definitions;
use crate::found::Found;
use crate::names::Names;
use crate::scope::{Scope, check_call, check_domain, check_ref};
use lang_model::syntax::{Expr, Name};

/// The first fault, of those found so far and those of an expression, given the variables assigned before it.
pub fn check_expr<'a>(
    scope: &Scope<'a, '_>,
    assigned: &Names<'a>,
    expr: &'a Expr,
    so_far: Option<Found<'a>>,
) -> Option<Found<'a>>
    ensures { told result ≡ noted_all (told so_far.entry) (faults (scope_of scope.now) (among assigned.now) expr.now) }
{
    match expr {
        Expr::Ref { at, name } => check_ref(scope, assigned, *at, name, so_far),
        Expr::Call { at, name, args } => {
            let given = args.as_slice();
            let mut first = check_call(scope, *at, name, given.len(), so_far);
            'call_args: for arg in given {
                first = check_expr(scope, assigned, arg, first);
            }
            first
        }
        Expr::Base { args, .. } => {
            let mut first = so_far;
            'base_args: for base_arg in args.as_slice() {
                first = check_expr(scope, assigned, base_arg, first);
            }
            first
        }
        Expr::Inject { at, base, domain } => check_domain(scope, *at, *base, domain, so_far),
        Expr::Pair { left, right, .. } => {
            let first = check_expr(scope, assigned, left, so_far);
            check_expr(scope, assigned, right, first)
        }
        Expr::Minus { of, .. } => check_expr(scope, assigned, of, so_far),
        Expr::Turned { of, .. } => check_expr(scope, assigned, of, so_far),
        Expr::Chain { first, rest } => {
            let mut found = check_expr(scope, assigned, first, so_far);
            'links: for link in rest.as_slice() {
                found = check_expr(scope, assigned, &link.right, found);
            }
            found
        }
    }
}

/// The rank of the definition of a name; 0 if there is none.
fn rank_named(earlier: &Definitions, name: &Name) -> usize
    ensures { result ≡ rank_of_name earlier.now name.now }
{
    match earlier.find(name.bytes()) {
        None => 0,
        Some(summary) => summary.rank,
    }
}

/// The greatest rank of the definitions that an expression calls; 0 if it calls none.
pub fn greatest_called(earlier: &Definitions, expr: &Expr) -> usize
    ensures { result ≡ called earlier.now expr.now }
{
    match expr {
        Expr::Ref { .. } => 0,
        Expr::Call { name, args, .. } => {
            let mut most = rank_named(earlier, name);
            'call_args: for arg in args.as_slice() {
                most = most.max(greatest_called(earlier, arg));
            }
            most
        }
        Expr::Base { args, .. } => {
            let mut most = 0;
            'base_args: for base_arg in args.as_slice() {
                most = most.max(greatest_called(earlier, base_arg));
            }
            most
        }
        Expr::Inject { .. } => 0,
        Expr::Pair { left, right, .. } => {
            greatest_called(earlier, left).max(greatest_called(earlier, right))
        }
        Expr::Minus { of, .. } => greatest_called(earlier, of),
        Expr::Turned { of, .. } => greatest_called(earlier, of),
        Expr::Chain { first, rest } => {
            let mut most = greatest_called(earlier, first);
            'links: for link in rest.as_slice() {
                most = most.max(greatest_called(earlier, &link.right));
            }
            most
        }
    }
}
