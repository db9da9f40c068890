//! Values that are whole, and thin ones that are left so.
ghost use Rattle.std.specs.Prelude.{◌≡◌, IfOk, IfErr, IfSome, Ok, Err};
ghost use Rattle.rel_model.specs.Worker.{Stands};
ghost use Rattle.rel_steps.specs.Reading.{OnlyReads};
ghost use Rattle.rel_slices.specs.Thin.{ValueStands};
ghost use Rattle.rel_slices.specs.declared.thin.Value.TheVariants.{Whole};

use crate::sampling::looks_random;
use rel_model::{Lack, Rel};
use rel_slices::{LEAST, MOST, Remembers, Value};

/// The relations of two values, if both are whole.
pub fn both_whole(x: &Value, y: &Value) -> Option<(Rel, Rel)>
    ensures some { IfSome result (λ p. (x.now ≡ Whole p.0) × (y.now ≡ Whole p.1)) }
{
    match x {
        Value::Whole(r) => match y {
            Value::Whole(s) => Some((*r, *s)),
            Value::Lines(_) => None,
        },
        Value::Lines(_) => None,
    }
}

/// A whole result, as a value.
pub fn stays_whole(given: Result<Rel, Lack>) -> Result<Value, Lack>
    ensures found { IfOk given (λ r. result ≡ Ok (Whole r)) }
    ensures failed { IfErr given (λ lack. result ≡ Err lack) }
{
    match given {
        Ok(r) => Ok(Value::Whole(r)),
        Err(lack) => Err(lack),
    }
}

/// Whether a relation is thin, its lines are not remembered, and it looks random. Lines that share nothing cost more to
/// cut than an operator on trees.
fn is_random<E: Remembers>(engine: &mut E, r: Rel) -> bool
    requires { Stands (E.worker engine.old) r }
    ensures { OnlyReads (E.worker engine.old) (E.worker engine.new) }
{
    let (short, long) = (r.rows.min(r.cols), r.rows.max(r.cols));
    if short > MOST || long < LEAST || engine.lines_of(r).is_some() {
        return false;
    }
    looks_random(engine, r)
}

/// The relation of a value that is better left whole.
pub fn left_whole<E: Remembers>(engine: &mut E, v: &Value) -> Option<Rel>
    requires { ValueStands (E.worker engine.old) v.now }
    ensures some { IfSome result (λ r. v.now ≡ Whole r) }
    ensures reads { OnlyReads (E.worker engine.old) (E.worker engine.new) }
{
    match v {
        Value::Whole(r) => {
            if is_random(engine, *r) {
                return Some(*r);
            }
            None
        }
        Value::Lines(_) => None,
    }
}

/// The relations of two values, if both are whole and one of them is better left so.
pub fn both_left_whole<E: Remembers>(engine: &mut E, x: &Value, y: &Value) -> Option<(Rel, Rel)>
    requires left { ValueStands (E.worker engine.old) x.now }
    requires right { ValueStands (E.worker engine.old) y.now }
    ensures some { IfSome result (λ p. (x.now ≡ Whole p.0) × (y.now ≡ Whole p.1)) }
    ensures reads { OnlyReads (E.worker engine.old) (E.worker engine.new) }
{
    let Some((r, s)) = both_whole(x, y) else {
        return None;
    };
    if is_random(engine, r) {
        return Some((r, s));
    }
    if is_random(engine, s) {
        return Some((r, s));
    }
    None
}
