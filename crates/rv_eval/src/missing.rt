//! The leftmost name of an expression that has no relation.
ghost use Rattle.std.specs.Prelude.{◌≡◌, Some, None, MatchOption};
ghost use Rattle.lang_model.specs.Missing.{missing};
ghost use Rattle.rv_eval.specs.Names.{sized};
ghost use Rattle.rv_eval.specs.Lacking.{missing_of_args, missing_of_links};

use crate::names::find;
use lang_model::syntax::{Expr, Link, Name, Place};
use rel_model::Rel;

/// The leftmost name in an expression that has no relation, and its place.
#[cycle(looking)]
pub fn first_missing<'a>(names: &[(Name, Rel)], expr: &'a Expr) -> Option<(Place, &'a Name)>
    ensures { let m = missing (sized names.now) expr.now in
        MatchOption result (m ≡ None) (λ x. m ≡ Some (x.0, x.1.now)) }
{
    match expr {
        Expr::Ref { at, name } => match find(names, name.bytes()) {
            Some(_) => None,
            None => Some((*at, name)),
        },
        Expr::Call { args, .. } => first_of_args(names, args.as_slice()),
        Expr::Base { args, .. } => first_of_args(names, args.as_slice()),
        Expr::Inject { .. } => None,
        Expr::Pair { left, right, .. } => match first_missing(names, left) {
            Some(found) => Some(found),
            None => first_missing(names, right),
        },
        Expr::Minus { of, .. } => first_missing(names, of),
        Expr::Turned { of, .. } => first_missing(names, of),
        Expr::Chain { first, rest } => match first_missing(names, first) {
            Some(found) => Some(found),
            None => first_of_links(names, rest.as_slice()),
        },
    }
}

/// The leftmost name in the arguments that has no relation, and its place.
#[cycle(looking)]
fn first_of_args<'a>(names: &[(Name, Rel)], args: &'a [Expr]) -> Option<(Place, &'a Name)>
    ensures { let m = missing_of_args (sized names.now) args.now in
        MatchOption result (m ≡ None) (λ x. m ≡ Some (x.0, x.1.now)) }
{
    'args: for arg in args {
        if let Some(found) = first_missing(names, arg) {
            return Some(found);
        }
    }
    None
}

/// The leftmost name in the links of a chain that has no relation, and its place.
#[cycle(looking)]
fn first_of_links<'a>(names: &[(Name, Rel)], links: &'a [Link]) -> Option<(Place, &'a Name)>
    ensures { let m = missing_of_links (sized names.now) links.now in
        MatchOption result (m ≡ None) (λ x. m ≡ Some (x.0, x.1.now)) }
{
    'links: for link in links {
        if let Some(found) = first_missing(names, &link.right) {
            return Some(found);
        }
    }
    None
}
