//! The pairs of a value, in order.
ghost use Rattle.std.specs.Prelude.{◌≡◌, ◌<◌, ◌≤◌, ◌++◌, IfOk, IfSome, OnOk, OnErr, length, map, false};
ghost use Rattle.rel_model.specs.Operators.{transpose};
ghost use Rattle.rel_model.specs.Relation.{Relation, IsRelation};
ghost use Rattle.rel_model.specs.Worker.{Keeps, MakesAtMost, MissesNothing};
ghost use Rattle.rel_steps.specs.Reading.{OnlyReads};
ghost use Rattle.rel_slices.specs.Thin.{ThinStands, ValueStands, laid, line_set, thin_of, value_of};

use crate::counting::lines_count;
use rel_listing::pairs_of;
use rel_model::NoMemory;
use rel_model::engine_trait::Engine;
use rel_slices::{Remembers, Thin, Value};
use std::alloc::Global;

/// Appends the pairs of one line, each with the number of the line before its place in it.
fn push_line(pairs: &mut Vec<(u32, u32)>, line: u32, places: &[(u32, u32)]) -> Result<(), NoMemory>
    ensures items { OnOk result (pairs.new.items ≡ pairs.old.items ++ map (λ p. (line, p.1)) places.now) }
    ensures some { OnErr result (0 < length places.now) }
{
    'places: for place in places {
        pairs.push((line, place.1))?;
    }
    Ok(())
}

/// The places of all lines, by line and then by place.
fn places_of<E: Engine>(
    alloc: Global,
    engine: &mut E,
    s: &Thin,
) -> Result<Vec<(u32, u32)>, NoMemory>
    requires { ThinStands (E.worker engine.old) s.now }
    ensures value { IfOk result (λ v. v.items
        ≡ (laid false s.now.count s.now.other (line_set (E.worker engine.old) s.now)).pairs) }
    ensures keeps { Keeps (E.worker engine.old) (E.worker engine.new) }
    ensures room { MakesAtMost 0 (E.worker engine.old) (E.worker engine.new) }
    ensures misses { MissesNothing (E.worker engine.old) (E.worker engine.new) }
    ensures some { OnErr result
        (0 < length (laid false s.now.count s.now.other (line_set (E.worker engine.old) s.now)).pairs) }
{
    let mut pairs = Vec::new(alloc);
    'lines: for i in 0..s.count {
        let places = pairs_of(alloc, engine, s.line(i))?;
        push_line(&mut pairs, i, &places)?;
    }
    Ok(pairs)
}

/// Turns the pairs of a relation round, and puts them in order: the pairs of the transposition.
fn turn(pairs: &mut [(u32, u32)])
    ensures pairs { (r : Relation) → IsRelation r → pairs.old ≡ r.pairs → pairs.new ≡ (transpose r).pairs }
    ensures len { length pairs.new ≡ length pairs.old }
{
    'pairs: for k in 0..pairs.len() {
        let pair = pairs[k];
        pairs[k] = (pair.1, pair.0);
    }
    pairs.sort_unstable();
}

/// The pairs of the relation of lines, by row and then by column.
fn lines_pairs<E: Engine>(
    alloc: Global,
    engine: &mut E,
    s: &Thin,
) -> Result<Vec<(u32, u32)>, NoMemory>
    requires { ThinStands (E.worker engine.old) s.now }
    ensures value { IfOk result (λ v. v.items ≡ (thin_of (E.worker engine.old) s.now).pairs) }
    ensures keeps { Keeps (E.worker engine.old) (E.worker engine.new) }
    ensures room { MakesAtMost 0 (E.worker engine.old) (E.worker engine.new) }
    ensures misses { MissesNothing (E.worker engine.old) (E.worker engine.new) }
    ensures some { OnErr result (0 < length (thin_of (E.worker engine.old) s.now).pairs) }
{
    let mut pairs = places_of(alloc, engine, s)?;
    if s.turned {
        turn(&mut pairs);
    }
    Ok(pairs)
}

/// The pairs of a value, by row and then by column. Nothing is made whole, so this makes no node. Refused only if
/// memory runs out; a value without pairs takes none.
pub fn pairs<E: Remembers>(
    alloc: Global,
    engine: &mut E,
    v: &Value,
) -> Result<Vec<(u32, u32)>, NoMemory>
    requires { ValueStands (E.worker engine.old) v.now }
    ensures value { IfOk result (λ p. p.items ≡ (value_of (E.worker engine.old) v.now).pairs) }
    ensures keeps { Keeps (E.worker engine.old) (E.worker engine.new) }
    ensures room { MakesAtMost 0 (E.worker engine.old) (E.worker engine.new) }
    ensures misses { MissesNothing (E.worker engine.old) (E.worker engine.new) }
    ensures some { OnErr result (0 < length (value_of (E.worker engine.old) v.now).pairs) }
{
    match v {
        Value::Whole(r) => pairs_of(alloc, engine, *r),
        Value::Lines(s) => lines_pairs(alloc, engine, s),
    }
}

/// The pairs of the relation of lines, if there are at most `most`. `None`: there are more, or memory ran out.
fn lines_within<E: Engine>(
    alloc: Global,
    engine: &mut E,
    s: &Thin,
    most: usize,
) -> Option<Vec<(u32, u32)>>
    requires { ThinStands (E.worker engine.old) s.now }
    ensures value { IfSome result (λ v. v.items ≡ (thin_of (E.worker engine.old) s.now).pairs) }
    ensures few { IfSome result (λ v. length v.items ≤ most) }
    ensures reads { OnlyReads (E.worker engine.old) (E.worker engine.new) }
{
    match lines_count(alloc, engine, s) {
        Ok(count) => {
            if count > most as u64 {
                return None;
            }
        }
        Err(_) => return None,
    }
    match lines_pairs(alloc, engine, s) {
        Ok(pairs) => {
            if pairs.len() > most {
                return None;
            }
            Some(pairs)
        }
        Err(_) => None,
    }
}

/// The pairs of a value of at most `most`, by row and then by column. `None`: there are more, or memory ran out. A
/// whole value is walked once, and no further than its pairs are wanted.
pub fn pairs_within<E: Remembers>(
    alloc: Global,
    engine: &mut E,
    v: &Value,
    most: usize,
) -> Option<Vec<(u32, u32)>>
    requires { ValueStands (E.worker engine.old) v.now }
    ensures value { IfSome result (λ p. p.items ≡ (value_of (E.worker engine.old) v.now).pairs) }
    ensures few { IfSome result (λ p. length p.items ≤ most) }
    ensures reads { OnlyReads (E.worker engine.old) (E.worker engine.new) }
{
    match v {
        Value::Whole(r) => rel_listing::pairs_within(alloc, engine, *r, most),
        Value::Lines(s) => lines_within(alloc, engine, s, most),
    }
}
