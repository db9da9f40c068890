//! Chains that begin with a transposition and a composition.
ghost use Rattle.std.specs.Prelude.{◌≡◌, ◌<◌, IfSome, length, get_or};
ghost use Rattle.lang_model.specs.declared.syntax.Op2.TheVariants.{Times};
ghost use Rattle.rv_eval.specs.Turned.{StartsTurned};

use crate::here::Start;
use lang_model::syntax::{Expr, Link, Op2};

/// The first link of a chain, if it is a composition.
fn composed(rest: &[Link]) -> Option<&Link>
    ensures { IfSome result (λ l.
        (0 < length rest.now) × (l.now ≡ get_or rest.now 0 l.now) × (l.now.op ≡ Times)) }
{
    if rest.is_empty() {
        return None;
    }
    let first = &rest[0];
    match first.op {
        Op2::Times => Some(first),
        _ => None,
    }
}

/// The start of a chain, if it is `R^...^ * S`.
pub fn turned_start<'a>(first: &'a Expr, rest: &'a [Link]) -> Option<Start<'a>>
    ensures { IfSome result (StartsTurned first.now rest.now) }
{
    let Some(link) = composed(rest) else {
        return None;
    };
    match first {
        Expr::Turned { of, times, .. } => Some(Start {
            of,
            times: *times,
            link,
            more: &rest[1..],
        }),
        _ => None,
    }
}
