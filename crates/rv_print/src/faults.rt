//! The texts of refusals: each call appends why something was refused.
ghost use Rattle.std.specs.Prelude.{◌≡◌, ◌≢◌, ◌++◌, List, ℕ, OnOk, IfOk};
ghost use Rattle.lang_model.specs.declared.faults.TypeFault.TheVariants.{Arity, Rank, NotTest};
ghost use Rattle.lang_model.specs.declared.faults.ParseFault.TheVariants.{Byte, Expected, TooDeep};
ghost use Rattle.run_model.specs.Texts.{place_text, shape_text, what_text, parse_fault_text, unknown_text, mismatch_text, type_fault_text, bad_file_text, unit_text, unit_limit, quoted, outcome_text, refusal_text};
ghost use Rattle.run_model.specs.declared.outcome.Outcome.TheVariants.{Done, Size, Turns, TooLarge, TooLong, NoFile, BadFile as BAD_FILE, Changed};

use crate::pieces::{push_number, push_number_after, push_shape, push_text_at};
use lang_model::faults::{ParseFault, StaticShape, TypeFault, What};
use lang_model::limits::{NESTING_LIMIT, RANK_LIMIT};
use lang_model::syntax::{FileText, Name, Place};
use rel_model::NoMemory;
use run_model::limits::{LIST_LIMIT, PRINT_LIMIT, SAVE_LIMIT};
use run_model::outcome::{BadFile, Outcome, Unit};
use std::alloc::{AllocError, Global};

/// `refused: TEXT` as a line: why a command was refused.
#[tactic(auto, unfolding(run_model::specs::Texts::refusal_text))]
pub fn fault_text(alloc: Global, outcome: &Outcome) -> Result<Vec<u8>, NoMemory>
    requires { outcome.now ≢ Done }
    ensures { IfOk result (λ v. v.items ≡ refusal_text outcome.now) }
{
    let mut out = Vec::new(alloc);
    out.extend_from_slice(b"refused: ")?;
    push_outcome(alloc, &mut out, outcome)?;
    out.push(b'\n')?;
    Ok(out)
}

/// Appends why a command was refused.
#[tactic(auto, unfolding(run_model::specs::Texts::outcome_text))]
fn push_outcome(alloc: Global, out: &mut Vec<u8>, outcome: &Outcome) -> Result<(), AllocError>
    ensures { OnOk result (out.new.items ≡ out.old.items ++ outcome_text outcome.now) }
{
    match outcome {
        Outcome::Done => Ok(()),
        Outcome::Parse(fault) => push_parse_fault(alloc, out, fault),
        Outcome::Ill(fault) => push_type_fault(alloc, out, fault),
        Outcome::Size { at, wanted, limit } => push_size_over(alloc, out, *at, *wanted, *limit),
        Outcome::Turns { at, limit } => push_turns(alloc, out, *at, *limit),
        Outcome::Nodes => out.extend_from_slice(b"no free node word"),
        Outcome::TooLarge { wanted, unit } => push_too_large(alloc, out, *wanted, *unit),
        Outcome::TooLong { bits } => push_too_long(alloc, out, *bits),
        Outcome::NoFile { name } => push_no_file(out, name),
        Outcome::BadFile { name, kind } => push_bad(alloc, out, name, *kind),
        Outcome::NoMemory => out.extend_from_slice(b"no memory"),
        Outcome::Changed { name, seen, found } => push_changed(alloc, out, name, *seen, *found),
    }
}

// ---- outcomes of commands
/// Appends that a size exceeds its limit.
#[tactic(auto, unfolding(run_model::specs::Texts::outcome_text))]
fn push_size_over(
    alloc: Global,
    out: &mut Vec<u8>,
    at: Place,
    wanted: u64,
    limit: u64,
) -> Result<(), AllocError>
    ensures { OnOk result (out.new.items ≡ out.old.items ++ outcome_text (Size at wanted limit)) }
{
    push_text_at(alloc, out, at, b"size ")?;
    push_number(alloc, out, wanted)?;
    push_number_after(alloc, out, b" passes the limit ", limit)
}

/// Appends that loops took too many turns.
#[tactic(auto, unfolding(run_model::specs::Texts::outcome_text))]
fn push_turns(alloc: Global, out: &mut Vec<u8>, at: Place, limit: u64) -> Result<(), AllocError>
    ensures { OnOk result (out.new.items ≡ out.old.items ++ outcome_text (Turns at limit)) }
{
    push_text_at(alloc, out, at, b"more than ")?;
    push_number(alloc, out, limit)?;
    out.extend_from_slice(b" turns")
}

/// What a limit counts.
fn unit_name(unit: Unit) -> &'static [u8]
    ensures { result.now ≡ unit_text unit }
{
    match unit {
        Unit::Cells => b" cells",
        Unit::Pairs => b" pairs",
    }
}

/// The limit of what is counted.
fn limit_of(unit: Unit) -> u64
    ensures { result ≡ unit_limit unit }
{
    match unit {
        Unit::Cells => PRINT_LIMIT,
        Unit::Pairs => LIST_LIMIT,
    }
}

/// Appends that a relation has too many cells or pairs to be shown.
#[tactic(auto, unfolding(run_model::specs::Texts::outcome_text))]
fn push_too_large(
    alloc: Global,
    out: &mut Vec<u8>,
    wanted: u64,
    unit: Unit,
) -> Result<(), AllocError>
    ensures { OnOk result (out.new.items ≡ out.old.items ++ outcome_text (TooLarge wanted unit)) }
{
    push_number(alloc, out, wanted)?;
    out.extend_from_slice(unit_name(unit))?;
    push_number_after(alloc, out, b" pass the limit ", limit_of(unit))
}

/// Appends that a relation's tree has too many bits to be saved.
#[tactic(auto, unfolding(run_model::specs::Texts::outcome_text))]
fn push_too_long(alloc: Global, out: &mut Vec<u8>, bits: u64) -> Result<(), AllocError>
    ensures { OnOk result (out.new.items ≡ out.old.items ++ outcome_text (TooLong bits)) }
{
    push_number(alloc, out, bits)?;
    push_number_after(alloc, out, b" bits pass the limit ", SAVE_LIMIT)
}

/// Appends that a name was changed between the read of an atomic block and its commit.
#[tactic(auto, unfolding(run_model::specs::Texts::outcome_text))]
fn push_changed(
    alloc: Global,
    out: &mut Vec<u8>,
    name: &Name,
    seen: u64,
    found: u64,
) -> Result<(), AllocError>
    ensures { OnOk result (out.new.items ≡ out.old.items ++ outcome_text (Changed name.now seen found)) }
{
    out.extend_from_slice(name.bytes())?;
    push_number_after(alloc, out, b" changed: version ", seen)?;
    push_number_after(alloc, out, b" at the read, ", found)?;
    out.extend_from_slice(b" at the commit")
}

// ---- relation files
/// Appends a text in quotes.
fn push_quoted(out: &mut Vec<u8>, text: &[u8]) -> Result<(), AllocError>
    ensures { OnOk result (out.new.items ≡ out.old.items ++ quoted text.now) }
{
    out.push(b'"')?;
    out.extend_from_slice(text)?;
    out.extend_from_slice(b"\"")
}

/// Appends that there is no file of a name.
#[tactic(auto, unfolding(run_model::specs::Texts::outcome_text))]
fn push_no_file(out: &mut Vec<u8>, name: &FileText) -> Result<(), AllocError>
    ensures { OnOk result (out.new.items ≡ out.old.items ++ outcome_text (NoFile name.now)) }
{
    out.extend_from_slice(b"no file ")?;
    push_quoted(out, name.bytes())
}

/// Appends that a file is not a relation file.
#[tactic(auto, unfolding(run_model::specs::Texts::outcome_text))]
fn push_bad(
    alloc: Global,
    out: &mut Vec<u8>,
    name: &FileText,
    kind: BadFile,
) -> Result<(), AllocError>
    ensures { OnOk result (out.new.items ≡ out.old.items ++ outcome_text (BAD_FILE name.now kind)) }
{
    out.extend_from_slice(b"file ")?;
    push_quoted(out, name.bytes())?;
    out.extend_from_slice(b" is bad: ")?;
    push_kind(alloc, out, kind)
}

/// Appends why bytes are not a relation file.
#[tactic(auto, unfolding(run_model::specs::Texts::bad_file_text))]
fn push_kind(alloc: Global, out: &mut Vec<u8>, kind: BadFile) -> Result<(), AllocError>
    ensures { OnOk result (out.new.items ≡ out.old.items ++ bad_file_text kind) }
{
    match kind {
        BadFile::Short => out.extend_from_slice(b"short"),
        BadFile::Magic => out.extend_from_slice(b"magic"),
        BadFile::Sizes => out.extend_from_slice(b"sizes"),
        BadFile::Height => out.extend_from_slice(b"height"),
        BadFile::Lengths => out.extend_from_slice(b"lengths"),
        BadFile::ZeroGroup { at } => push_number_after(alloc, out, b"zero group at ", at),
        BadFile::Outside { at } => push_number_after(alloc, out, b"pair outside at ", at),
        BadFile::Padding => out.extend_from_slice(b"padding"),
        BadFile::Rest => out.extend_from_slice(b"rest"),
        BadFile::Full => out.extend_from_slice(b"no free node word"),
        BadFile::NoMemory => out.extend_from_slice(b"no memory"),
        BadFile::Quad { at } => push_number_after(alloc, out, b"bad quadrant at ", at),
        BadFile::Names { at } => push_number_after(alloc, out, b"bad name at ", at),
        BadFile::Root { at } => push_number_after(alloc, out, b"bad root at ", at),
        BadFile::Order { at } => push_number_after(alloc, out, b"order at ", at),
        BadFile::Missing => out.extend_from_slice(b"no relation of this name"),
    }
}

// ---- grammar
/// What the grammar expects.
#[tactic(auto, unfolding(run_model::specs::Texts::what_text))]
fn what_name(what: &What) -> &[u8]
    ensures { result.now ≡ what_text what.now }
{
    match what {
        What::Item => b"an item",
        What::Expression => b"an expression",
        What::Name => b"a name",
        What::Number => b"a number",
        What::NumberFromOne => b"a number from 1",
        What::FileText => b"a file text",
        What::Token(text) => text.bytes(),
    }
}

/// Appends that a byte belongs to no token.
#[tactic(auto, unfolding(run_model::specs::Texts::parse_fault_text))]
fn push_byte(alloc: Global, out: &mut Vec<u8>, at: Place, byte: u8) -> Result<(), AllocError>
    ensures { OnOk result (out.new.items ≡ out.old.items ++ parse_fault_text (Byte at byte)) }
{
    push_text_at(alloc, out, at, b"byte ")?;
    push_number(alloc, out, u64::from(byte))?;
    out.extend_from_slice(b" is not allowed")
}

/// Appends what is expected at a place.
#[tactic(auto, unfolding(run_model::specs::Texts::parse_fault_text))]
fn push_expected(alloc: Global, out: &mut Vec<u8>, at: Place, what: &What) -> Result<(), AllocError>
    ensures { OnOk result (out.new.items ≡ out.old.items ++ parse_fault_text (Expected at what.now)) }
{
    push_text_at(alloc, out, at, b"expected ")?;
    out.extend_from_slice(what_name(what))
}

/// Appends that a script is nested too deeply.
#[tactic(auto, unfolding(run_model::specs::Texts::parse_fault_text))]
fn push_too_deep(alloc: Global, out: &mut Vec<u8>, at: Place) -> Result<(), AllocError>
    ensures { OnOk result (out.new.items ≡ out.old.items ++ parse_fault_text (TooDeep at)) }
{
    push_text_at(alloc, out, at, b"nested deeper than ")?;
    push_number(alloc, out, u64::from(NESTING_LIMIT))
}

/// Appends why bytes are not a script.
#[tactic(auto, unfolding(run_model::specs::Texts::parse_fault_text))]
fn push_parse_fault(alloc: Global, out: &mut Vec<u8>, fault: &ParseFault) -> Result<(), AllocError>
    ensures { OnOk result (out.new.items ≡ out.old.items ++ parse_fault_text fault.now) }
{
    match fault {
        ParseFault::Byte { at, byte } => push_byte(alloc, out, *at, *byte),
        ParseFault::Expected { at, what } => push_expected(alloc, out, *at, what),
        ParseFault::TooDeep { at } => push_too_deep(alloc, out, *at),
        ParseFault::NumberTooLarge { at } => push_text_at(alloc, out, *at, b"number over 64 bits"),
        ParseFault::NameTooLong { at } => push_text_at(alloc, out, *at, b"name too long"),
        ParseFault::NoMemory => out.extend_from_slice(b"no memory"),
    }
}

// ---- meaning
/// Appends that a name has no relation, at its place.
#[tactic(auto, unfolding(run_model::specs::Texts::unknown_text))]
fn push_unknown(alloc: Global, out: &mut Vec<u8>, at: Place, name: &Name) -> Result<(), AllocError>
    ensures { OnOk result (out.new.items ≡ out.old.items ++ unknown_text at name.now) }
{
    push_text_at(alloc, out, at, b"unknown name ")?;
    out.extend_from_slice(name.bytes())
}

/// Appends what is said about a name, at its place.
fn push_said(
    alloc: Global,
    out: &mut Vec<u8>,
    at: Place,
    name: &Name,
    said: &[u8],
) -> Result<(), AllocError>
    ensures { OnOk result (out.new.items ≡ out.old.items ++ (place_text at ++ name.now ++ said.now)) }
{
    push_text_at(alloc, out, at, name.bytes())?;
    out.extend_from_slice(said)
}

/// Appends that an operator needs an operand of another shape.
fn push_unfit(
    alloc: Global,
    out: &mut Vec<u8>,
    at: Place,
    op: &Name,
    said: &[u8],
    shape: StaticShape,
) -> Result<(), AllocError>
    ensures { OnOk result (out.new.items ≡ out.old.items
        ++ (place_text at ++ op.now ++ said.now ++ shape_text shape)) }
{
    push_said(alloc, out, at, op, said)?;
    push_shape(alloc, out, shape)
}

/// Appends that a definition has too high a rank.
#[tactic(auto, unfolding(run_model::specs::Texts::type_fault_text))]
fn push_rank(alloc: Global, out: &mut Vec<u8>, at: Place, name: &Name) -> Result<(), AllocError>
    ensures { OnOk result (out.new.items ≡ out.old.items ++ type_fault_text (Rank at name.now)) }
{
    push_said(alloc, out, at, name, b" has a rank over ")?;
    push_number(alloc, out, u64::from(RANK_LIMIT))
}

/// Appends that a test does not have one row and one column.
#[tactic(auto, unfolding(run_model::specs::Texts::type_fault_text))]
fn push_no_test(
    alloc: Global,
    out: &mut Vec<u8>,
    at: Place,
    shape: StaticShape,
) -> Result<(), AllocError>
    ensures { OnOk result (out.new.items ≡ out.old.items ++ type_fault_text (NotTest at shape)) }
{
    push_text_at(alloc, out, at, b"a test must be 1 x 1, not ")?;
    push_shape(alloc, out, shape)
}

/// Appends how many arguments a definition takes.
#[tactic(auto, unfolding(run_model::specs::Texts::type_fault_text))]
fn push_arity(
    alloc: Global,
    out: &mut Vec<u8>,
    at: Place,
    name: &Name,
    takes: u32,
    given: u32,
) -> Result<(), AllocError>
    ensures { OnOk result (out.new.items ≡ out.old.items ++ type_fault_text (Arity at name.now takes given)) }
{
    push_said(alloc, out, at, name, b" takes ")?;
    push_number(alloc, out, u64::from(takes))?;
    push_number_after(alloc, out, b" arguments, not ", u64::from(given))
}

/// Appends that operands do not fit.
#[tactic(auto, unfolding(run_model::specs::Texts::mismatch_text))]
fn push_mismatch(
    alloc: Global,
    out: &mut Vec<u8>,
    at: Place,
    op: &Name,
    left: StaticShape,
    right: StaticShape,
) -> Result<(), AllocError>
    ensures { OnOk result (out.new.items ≡ out.old.items ++ mismatch_text at op.now left right) }
{
    push_said(alloc, out, at, op, b" does not fit ")?;
    push_shape(alloc, out, left)?;
    out.extend_from_slice(b" and ")?;
    push_shape(alloc, out, right)
}

/// Appends why an expression or a script has no meaning.
#[tactic(auto, unfolding(run_model::specs::Texts::type_fault_text))]
fn push_type_fault(alloc: Global, out: &mut Vec<u8>, fault: &TypeFault) -> Result<(), AllocError>
    ensures { OnOk result (out.new.items ≡ out.old.items ++ type_fault_text fault.now) }
{
    match fault {
        TypeFault::Unknown { at, name } => push_unknown(alloc, out, *at, name),
        TypeFault::Arity {
            at,
            name,
            takes,
            given,
        } => push_arity(alloc, out, *at, name, *takes, *given),
        TypeFault::Unassigned { at, name } => {
            push_said(alloc, out, *at, name, b" may be read before it is assigned")
        }
        TypeFault::Rank { at, name } => push_rank(alloc, out, *at, name),
        TypeFault::Mismatch {
            at,
            op,
            left,
            right,
        } => push_mismatch(alloc, out, *at, op, *left, *right),
        TypeFault::NotSquare { at, op, shape } => {
            push_unfit(
                alloc,
                out,
                *at,
                op,
                b" needs a square relation, not ",
                *shape,
            )
        }
        TypeFault::NotVector { at, op, shape } => {
            push_unfit(alloc, out, *at, op, b" needs one column, not ", *shape)
        }
        TypeFault::NotTest { at, shape } => push_no_test(alloc, out, *at, *shape),
        TypeFault::Twice { at, name } => { push_said(alloc, out, *at, name, b" is defined twice") }
        TypeFault::NoMemory => out.extend_from_slice(b"no memory"),
    }
}
