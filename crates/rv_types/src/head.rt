//! The faults at the name of a definition: its rank, and names that are already taken.
ghost use Rattle.std.specs.Prelude.{◌≡◌, ◌<◌, ◌||◌, ◌∷◌, [], ℕ, List, cond, length, nat_lt, IfOk, OnOk, OnErr};
ghost use Rattle.lang_model.specs.declared.faults.TypeFault.TheVariants.{Rank, Twice};
ghost use Rattle.lang_model.specs.Checking.{among, names_of, parameter_faults, head_faults};
ghost use Rattle.lang_model.specs.Limits.{rank_limit};
ghost use Rattle.rv_types.specs.Found.{told, noted as noted_all};

use crate::definitions::Definitions;
use crate::found::{Cause, Found, Spelled, noted};
use crate::names::Names;
use lang_model::limits::RANK_LIMIT;
use lang_model::syntax::{Name, Place};
use rel_model::NoMemory;

/// The name of a definition, its place, its parameters and its rank. 40 bytes.
#[derive(Clone, Copy)]
pub struct Head<'a> {
    pub at: Place,
    pub name: &'a Name,
    pub params: &'a [Name],
    pub rank: usize,
}

impl<'a> Head<'a> {
    /// The head of a definition of this rank.
    pub fn new(at: Place, name: &'a Name, params: &'a [Name], rank: usize) -> Head<'a>
        ensures place { result.at ≡ at }
        ensures name { result.name.now ≡ name.now }
        ensures parameters { result.params.now ≡ params.now }
        ensures rank { result.rank ≡ rank }
    {
        Head {
            at,
            name,
            params,
            rank,
        }
    }
}

/// A name that is already taken.
pub fn check_repeated<'a>(
    before: &Names<'a>,
    at: Place,
    name: &'a Name,
    so_far: Option<Found<'a>>,
) -> Option<Found<'a>>
    ensures { told result ≡ noted_all (told so_far.entry)
        (cond (among before.now name.now) (Twice at name.now ∷ []) []) }
{
    if before.has(name.bytes()) {
        noted(
            so_far,
            Found {
                at,
                cause: Cause::Twice,
                name: Spelled::Name(name),
            },
        )
    } else {
        so_far
    }
}

/// Parameters that occur twice, reported at the place of the definition's name. Afterwards all parameters are among the
/// names.
fn check_parameters<'a>(
    at: Place,
    before: &mut Names<'a>,
    params: &'a [Name],
    so_far: Option<Found<'a>>,
) -> Result<Option<Found<'a>>, NoMemory>
    ensures fault { IfOk result (λ r. told r ≡ noted_all (told so_far.entry)
        (parameter_faults at before.old params.now)) }
    ensures names { OnOk result ((n : List ℕ) → among before.new n ≡ (among params.now n || among before.old n)) }
    ensures memory { OnErr result (0 < length params.now) }
{
    let mut found = so_far;
    'each: for param in params {
        found = check_repeated(before, at, param, found);
        before.add(param.bytes())?;
    }
    Ok(found)
}

/// A rank that exceeds the limit.
fn check_rank<'a>(head: Head<'a>, so_far: Option<Found<'a>>) -> Option<Found<'a>>
    ensures { told result ≡ noted_all (told so_far.entry)
        (cond (nat_lt rank_limit head.entry.rank) (Rank head.entry.at head.entry.name.now ∷ []) []) }
{
    if head.rank > RANK_LIMIT as usize {
        noted(
            so_far,
            Found {
                at: head.at,
                cause: Cause::Rank,
                name: Spelled::Name(head.name),
            },
        )
    } else {
        so_far
    }
}

/// A name that an earlier item already defines.
fn check_defined<'a>(
    earlier: &Definitions,
    head: Head<'a>,
    so_far: Option<Found<'a>>,
) -> Option<Found<'a>>
    ensures { told result ≡ noted_all (told so_far.entry)
        (cond (among (names_of earlier.now) head.entry.name.now) (Twice head.entry.at head.entry.name.now ∷ []) []) }
{
    match earlier.find(head.name.bytes()) {
        None => so_far,
        Some(_) => noted(
            so_far,
            Found {
                at: head.at,
                cause: Cause::Twice,
                name: Spelled::Name(head.name),
            },
        ),
    }
}

/// The faults at the name of a definition. Afterwards the parameters are among the names.
#[tactic(auto, unfolding(lang_model::specs::Checking::head_faults))]
pub fn check_head<'a>(
    earlier: &Definitions,
    head: Head<'a>,
    before: &mut Names<'a>,
    so_far: Option<Found<'a>>,
) -> Result<Option<Found<'a>>, NoMemory>
    requires { before.old ≡ [] }
    ensures fault { IfOk result (λ r. told r ≡ noted_all (told so_far.entry)
        (head_faults earlier.now head.entry.at head.entry.name.now head.entry.params.now head.entry.rank)) }
    ensures names { OnOk result ((n : List ℕ) → among before.new n ≡ among head.entry.params.now n) }
    ensures memory { OnErr result (0 < length head.entry.params.now) }
{
    let ranked = check_rank(head, so_far);
    let defined = check_defined(earlier, head, ranked);
    check_parameters(head.at, before, head.params, defined)
}
