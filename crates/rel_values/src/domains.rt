//! Membership and pairing, whose results may be too large.
ghost use Rattle.std.specs.Prelude.{◌≡◌, ◌≤◌, ◌+◌, ◌*◌, ◌^◌, max, Ok, Err, IfOk, IfErr};
ghost use Rattle.rel_model.specs.declared.faults.DomainError.TheVariants.{Size};
ghost use Rattle.rel_model.specs.Domains.{membership, pairing};
ghost use Rattle.rel_model.specs.Relation.{size_limit};
ghost use Rattle.rel_model.specs.Worker.{Gives, Keeps, MakesAtMost, HasCause, wide_room};
ghost use Rattle.rel_slices.specs.declared.thin.Value.TheVariants.{Whole};
ghost use Rattle.rel_slices.specs.Thin.{value_of, value_rows, value_cols};
ghost use Rattle.rel_values.specs.Values.{Fits, OperatesWithin, owed};

use rel_model::engine_trait::Engine;
use rel_model::faults::DomainError;
use rel_model::{Lack, Rel, SIZE_LIMIT};
use rel_slices::{Value, made_whole, member_lines, shape_of};

/// A whole result, as a value.
fn whole_within(given: Result<Rel, DomainError>) -> Result<Value, DomainError>
    ensures found { IfOk given (λ r. result ≡ Ok (Whole r)) }
    ensures failed { IfErr given (λ fault. result ≡ Err fault) }
{
    match given {
        Ok(r) => Ok(Value::Whole(r)),
        Err(fault) => Err(fault),
    }
}

/// The error of a size over the limit.
fn too_large(wanted: u64) -> DomainError
    ensures { result ≡ Size wanted size_limit }
{
    DomainError::Size {
        wanted,
        limit: u64::from(SIZE_LIMIT),
    }
}

/// `{(i, s) : bit i of s is 1}`: the membership relation between elements and subsets, with x rows and 2^x columns.
/// Refused if 2^x exceeds the limit.
pub fn epsi<E: Engine>(engine: &mut E, x: u32) -> Result<Value, DomainError>
    requires limit { x ≤ size_limit }
    ensures operates { let w = E.worker engine.old in OperatesWithin E.least E.lean w (E.worker engine.new)
        x (2 ^ x)
        (membership x)
        (wide_room x 1 (2 ^ x)) (2 ^ x) result }
{
    if x < 9 || x > 24 {
        return whole_within(engine.epsi(x));
    }
    match member_lines(engine, x) {
        Ok(lines) => Ok(Value::Lines(lines)),
        Err(Lack::Full) => Err(DomainError::Full),
        Err(Lack::NoMemory) => Err(DomainError::NoMemory),
    }
}

/// Makes two values whole.
fn two_whole<E: Engine>(engine: &mut E, x: &Value, y: &Value) -> Result<(Rel, Rel), Lack>
    requires left { Fits (E.worker engine.old) x.now }
    requires right { Fits (E.worker engine.old) y.now }
    ensures first { let w = E.worker engine.old in IfOk result (λ p. Gives (E.worker engine.new) (value_rows x.now)
        (value_cols x.now) (value_of w x.now) p.0) }
    ensures second { let w = E.worker engine.old in IfOk result (λ p. Gives (E.worker engine.new) (value_rows y.now)
        (value_cols y.now) (value_of w y.now) p.1) }
    ensures keeps { Keeps (E.worker engine.old) (E.worker engine.new) }
    ensures room { MakesAtMost (owed E.least x.now + owed E.least y.now) (E.worker engine.old) (E.worker engine.new) }
    ensures cause { HasCause E.lean (E.worker engine.old) (E.worker engine.new) result }
{
    let first = made_whole(engine, x)?;
    let second = made_whole(engine, y)?;
    Ok((first, second))
}

/// `[R,S] = {(i, j * n + k) : (i, j) in r and (i, k) in s}`: the pairing of two values with the same number of rows,
/// where s has n columns. Refused if the number of columns of the result exceeds the limit.
pub fn pair<E: Engine>(engine: &mut E, x: &Value, y: &Value) -> Result<Value, DomainError>
    requires left { Fits (E.worker engine.old) x.now }
    requires right { Fits (E.worker engine.old) y.now }
    requires rows { value_rows x.now ≡ value_rows y.now }
    ensures operates { let w = E.worker engine.old in OperatesWithin E.least E.lean w (E.worker engine.new)
        (value_rows x.now) ((value_cols x.now) * (value_cols y.now))
        (pairing (value_of w x.now) (value_of w y.now))
        (wide_room (value_rows x.now) (max (value_cols x.now) (value_cols y.now))
        ((value_cols x.now) * (value_cols y.now)))
        ((value_cols x.now) * (value_cols y.now)) result }
{
    let wanted = u64::from(shape_of(x).cols) * u64::from(shape_of(y).cols);
    if wanted > u64::from(SIZE_LIMIT) {
        return Err(too_large(wanted));
    }
    match two_whole(engine, x, y) {
        Ok((r, s)) => whole_within(engine.fork(r, s)),
        Err(Lack::Full) => Err(DomainError::Full),
        Err(Lack::NoMemory) => Err(DomainError::NoMemory),
    }
}
