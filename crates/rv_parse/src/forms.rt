//! What stands behind base names and domain operators, and lists and boxes of the expressions that were read.
ghost use Rattle.std.specs.Prelude.{◌≡◌, ◌∷◌, [], MatchResult};
ghost use Rattle.lang_model.specs.BaseNames.{TakesDomain, form_of};
ghost use Rattle.lang_model.specs.Stop.{form_parts};
ghost use Rattle.lang_model.specs.declared.token.Kind.TheVariants.{Base as BASE};
ghost use Rattle.rv_tokens.specs.Endings.{ending_of};
ghost use Rattle.rv_parse.specs.declared.halt.Halt.TheVariants.{NoMemory};
ghost use Rattle.rv_parse.specs.Readers.{Refuses, form_is, IsBehind};

use crate::halt::Halt;
use crate::leaf::{next_name, next_sign, open};
use lang_model::syntax::{Base, Expr, Place};
use lang_model::token::Token;
use rv_tokens::Ending;
use std::alloc::Global;

/// What stands in the parentheses after a base name or a domain operator. 1 byte.
#[derive(Clone, Copy, Debug)]
pub enum Form {
    One,
    Two,
    Domain,
}

/// The form of a base name or a domain operator.
pub fn form_of(base: Base) -> Form
    ensures { form_is result ≡ form_of base }
{
    match base {
        Base::Syq | Base::Eq | Base::Incl => Form::Two,
        Base::Ubd | Base::Lbd | Base::Least => Form::Two,
        Base::Greatest | Base::Sup | Base::Inf => Form::Two,
        Base::P1 | Base::P2 | Base::I1 | Base::I2 => Form::Domain,
        _ => Form::One,
    }
}

/// A domain operator with its domain, after the operator.
pub fn with_domain(
    alloc: Global,
    base: Base,
    at: Place,
    tokens: &[Token],
    end: Ending,
    depth: u32,
) -> Result<(Expr, &[Token]), Halt>
    requires form { form_of base ≡ TakesDomain }
    ensures { MatchResult result (λ x. IsBehind (ending_of end) at (BASE base) (form_parts TakesDomain depth) depth
        x.0 tokens.now x.1.now) (Refuses (ending_of end) (form_parts TakesDomain depth) tokens.now) }
{
    let (_, rest) = open(tokens, end, depth)?;
    let (domain, _, rest) = next_name(alloc, rest, end)?;
    let (_, rest) = next_sign(rest, end, b')')?;
    Ok((Expr::Inject { at, base, domain }, rest))
}

/// A list with one argument.
pub fn one_argument(alloc: Global, argument: Expr) -> Result<Vec<Expr>, Halt>
    ensures { MatchResult result (λ args. args.items ≡ argument ∷ []) (λ halt. halt ≡ NoMemory) }
{
    let mut args = Vec::new(alloc);
    args.push(argument)?;
    Ok(args)
}

/// A list with two arguments.
pub fn two_arguments(alloc: Global, first: Expr, second: Expr) -> Result<Vec<Expr>, Halt>
    ensures { MatchResult result (λ args. args.items ≡ first ∷ second ∷ []) (λ halt. halt ≡ NoMemory) }
{
    let mut args = one_argument(alloc, first)?;
    args.push(second)?;
    Ok(args)
}

/// The two parts of a pair, each in a box of its own.
pub fn boxes(alloc: Global, left: Expr, right: Expr) -> Result<(Box<Expr>, Box<Expr>), Halt>
    ensures { MatchResult result (λ b. (b.0.value ≡ left) × (b.1.value ≡ right)) (λ halt. halt ≡ NoMemory) }
{
    let left = Box::new(alloc, left)?;
    let right = Box::new(alloc, right)?;
    Ok((left, right))
}
