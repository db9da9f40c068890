//! Listed relations.
ghost use Rattle.std.specs.Prelude.{◌≡◌, ◌≤◌, ◌∷◌, [], List, MatchResult};
ghost use Rattle.lang_model.specs.Taken.{Takes, TakesAt};
ghost use Rattle.lang_model.specs.Spelling.{SpellsColumns, SpellsRow, SpellsMoreRows, SpellsRows, SpellsCommand};
ghost use Rattle.lang_model.specs.Stop.{FromOne, NumberPart, SignPart, RowsPart, MoreRows, MoreColumns, row_parts};
ghost use Rattle.lang_model.specs.declared.token.Kind.TheVariants.{Keyword as KEYWORD, Number, Sign};
ghost use Rattle.lang_model.specs.declared.token.Keyword.TheVariants.{Rel as REL};
ghost use Rattle.lang_model.specs.declared.token.Token.{Token as TOKEN};
ghost use Rattle.rv_tokens.specs.Endings.{ending_of};
ghost use Rattle.rv_parse.specs.Readers.{Refuses, begins_number};
ghost use Rattle.rv_parse.specs.Got.{Got, relation_parts};

use crate::halt::Halt;
use crate::leaf::{behind_sign, next_from_one, next_name, next_number, next_sign};
use lang_model::syntax::{Column, Command, Place, Row};
use lang_model::token::{Kind, Token};
use rv_tokens::Ending;
use std::alloc::Global;

/// The numbers of rows and columns of a listed relation, with their places. 32 bytes.
#[derive(Clone, Copy)]
struct Sizes {
    rows: u64,
    rows_at: Place,
    cols: u64,
    cols_at: Place,
}

/// Whether the first token is a number.
fn begins_number(tokens: &[Token]) -> bool
    ensures { result ≡ begins_number tokens.now }
{
    match tokens {
        [first, ..] => match &first.kind {
            Kind::Number(_) => true,
            _ => false,
        },
        [] => false,
    }
}

/// The columns of a row.
#[tactic(auto, using(crate::proofs::RowSteps::drop_columns))]
fn columns(alloc: Global, tokens: &[Token], end: Ending) -> Result<(Vec<Column>, &[Token]), Halt>
    ensures { MatchResult result (λ x. Got (ending_of end) (FromOne ∷ MoreColumns ∷ []) (SpellsColumns x.0.items)
        tokens.now x.1.now) (Refuses (ending_of end) (FromOne ∷ MoreColumns ∷ []) tokens.now) }
{
    let (col, at, mut rest) = next_from_one(tokens, end)?;
    let mut cols = Vec::new(alloc);
    cols.push(Column { col, at })?;
    'columns: while let Some((_, behind)) = behind_sign(rest, b',') {
        let (col, at, behind) = next_from_one(behind, end)?;
        cols.push(Column { col, at })?;
        rest = behind;
    }
    Ok((cols, rest))
}

/// A row.
fn row(alloc: Global, tokens: &[Token], end: Ending) -> Result<(Row, &[Token]), Halt>
    ensures { MatchResult result (λ x. Got (ending_of end) row_parts (SpellsRow x.0) tokens.now x.1.now)
        (Refuses (ending_of end) row_parts tokens.now) }
{
    let (row, at, rest) = next_from_one(tokens, end)?;
    let (_, rest) = next_sign(rest, end, b':')?;
    let (cols, rest) = columns(alloc, rest, end)?;
    Ok((Row { row, at, cols }, rest))
}

/// The rows between the braces.
#[tactic(auto, using(crate::proofs::RowSteps::drop_rows, crate::proofs::RowSteps::drop_more_rows))]
fn rows(alloc: Global, tokens: &[Token], end: Ending) -> Result<(Vec<Row>, &[Token]), Halt>
    ensures { MatchResult result (λ x. Got (ending_of end) (RowsPart ∷ []) (SpellsRows x.0.items) tokens.now x.1.now)
        (Refuses (ending_of end) (RowsPart ∷ []) tokens.now) }
{
    let mut rows = Vec::new(alloc);
    if !begins_number(tokens) {
        return Ok((rows, tokens));
    }
    let (first, behind) = row(alloc, tokens, end)?;
    rows.push(first)?;
    let mut rest = behind;
    'rows: while let Some((_, behind)) = behind_sign(rest, b';') {
        let (next, behind) = row(alloc, behind, end)?;
        rows.push(next)?;
        rest = behind;
    }
    Ok((rows, rest))
}

/// The numbers of rows and columns of a listed relation.
fn both_sizes(tokens: &[Token], end: Ending) -> Result<(Sizes, &[Token]), Halt>
    ensures { MatchResult result (λ x. Got (ending_of end) (NumberPart ∷ NumberPart ∷ [])
        (λ t r. (mid : List TOKEN) × TakesAt x.0.rows_at (Number x.0.rows) t mid
        × TakesAt x.0.cols_at (Number x.0.cols) mid r) tokens.now x.1.now)
        (Refuses (ending_of end) (NumberPart ∷ NumberPart ∷ []) tokens.now) }
{
    let (rows, rows_at, rest) = next_number(tokens, end)?;
    let (cols, cols_at, rest) = next_number(rest, end)?;
    let sizes = Sizes {
        rows,
        rows_at,
        cols,
        cols_at,
    };
    Ok((sizes, rest))
}

/// The rows with the braces around them.
fn braced_rows(alloc: Global, tokens: &[Token], end: Ending) -> Result<(Vec<Row>, &[Token]), Halt>
    ensures { MatchResult result (λ x. Got (ending_of end) (SignPart 123 ∷ RowsPart ∷ SignPart 125 ∷ [])
        (λ t r. (t1 t2 : List TOKEN) × Takes (Sign 123) t t1 × SpellsRows x.0.items t1 t2 × Takes (Sign 125) t2 r)
        tokens.now x.1.now) (Refuses (ending_of end) (SignPart 123 ∷ RowsPart ∷ SignPart 125 ∷ []) tokens.now) }
{
    let (_, rest) = next_sign(tokens, end, b'{')?;
    let (list, rest) = rows(alloc, rest, end)?;
    let (_, rest) = next_sign(rest, end, b'}')?;
    Ok((list, rest))
}

/// The listed relation, after REL.
pub fn relation(alloc: Global, tokens: &[Token], end: Ending) -> Result<(Command, &[Token]), Halt>
    ensures { MatchResult result (λ x. Got (ending_of end) relation_parts
        (λ t r. (before : List TOKEN) → Takes (KEYWORD REL) before t → SpellsCommand x.0 before r) tokens.now x.1.now)
        (Refuses (ending_of end) relation_parts tokens.now) }
{
    let (name, _, rest) = next_name(alloc, tokens, end)?;
    let (sizes, rest) = both_sizes(rest, end)?;
    let (list, rest) = braced_rows(alloc, rest, end)?;
    let command = Command::Relation {
        name,
        rows: sizes.rows,
        rows_at: sizes.rows_at,
        cols: sizes.cols,
        cols_at: sizes.cols_at,
        list,
    };
    Ok((command, rest))
}
