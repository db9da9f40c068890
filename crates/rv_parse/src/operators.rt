//! Operators of chains, and signs `^`.
ghost use Rattle.std.specs.Prelude.{◌≡◌, ◌<◌, ◌+◌, ◌^◌, ◌∷◌, [], false, length, MatchOption};
ghost use Rattle.lang_model.specs.Taken.{Carets};
ghost use Rattle.lang_model.specs.Lexed.{Ending as ENDING};
ghost use Rattle.lang_model.specs.Stop.{MoreCarets};
ghost use Rattle.rv_parse.specs.Readers.{Reads, begins_operator, level_of, OperatorIs, IsLink};

use crate::leaf::behind_sign;
use lang_model::syntax::{Op2, Place};
use lang_model::token::{Kind, Token};

/// The levels of chains. 1 byte.
#[derive(Clone, Copy, Debug)]
pub enum Chains {
    Or,
    And,
    Prod,
}

/// The operator that a sign is on a level, if it is one.
fn operator_of(level: Chains, sign: u8) -> Option<Op2>
    ensures { OperatorIs (level_of level) sign result }
{
    match level {
        Chains::Or => match sign {
            b'|' => Some(Op2::Or),
            _ => None,
        },
        Chains::And => match sign {
            b'&' => Some(Op2::And),
            _ => None,
        },
        Chains::Prod => match sign {
            b'*' => Some(Op2::Times),
            b'\\' => Some(Op2::Under),
            b'/' => Some(Op2::Over),
            _ => None,
        },
    }
}

/// The operator of a level, if the first token is one.
pub fn operator(level: Chains, tokens: &[Token]) -> Option<(Op2, Place, &[Token])>
    ensures { MatchOption result (begins_operator (level_of level) tokens.now ≡ false)
        (λ x. IsLink (level_of level) x.0 x.1 tokens.now x.2.now) }
{
    let [first, rest @ ..] = tokens else {
        return None;
    };
    match &first.kind {
        Kind::Sign(sign) => match operator_of(level, *sign) {
            Some(op) => Some((op, first.at, rest)),
            None => None,
        },
        _ => None,
    }
}

/// The number of signs `^` at the front.
#[tactic(auto, using(crate::proofs::Optional::drop_carets))]
pub fn carets(tokens: &[Token]) -> (u32, &[Token])
    requires { length tokens.now < 2 ^ 32 }
    ensures spelled { Carets result.0 tokens.now result.1.now }
    ensures count { result.0 + length result.1.now ≡ length tokens.now }
    ensures read { (e : ENDING) → Reads e (MoreCarets ∷ []) tokens.now result.1.now }
{
    let mut count = 0;
    let mut rest = tokens;
    'carets: while let Some((_, behind)) = behind_sign(rest, b'^') {
        rest = behind;
        count += 1;
    }
    (count, rest)
}
