//! Relations by chance: scattered ones, which are listed to be told univalent, and thin ones, on which operators work
//! as wholes.
#![tactic(auto, using(rel_values::proofs::Operating::fits_stays, rel_values::proofs::Operating::whole_fits, rel_values::proofs::Operating::given_fits, rel_model::proofs::Workers::keeps_trans, rel_model::proofs::Workers::keeps_stands, rel_model::proofs::Workers::gives_stands))]

ghost use Rattle.rel_model.specs.Worker.{Stands, Keeps};

use crate::cells::{Op, Sizes};
use crate::lists::{map_by_chance, places_by_chance};
use crate::made::of_pairs;
use crate::trial::{Trial, on_a_table};
use crate::values::calls::answer_of;
use crate::values::valued;
use rel_model::{Rel, Shape};
use rel_slices::{Remembers, Value};
use rel_values::{count, pairs_within, unival, whole};
use std::alloc::Global;
use std::process::Abort;
use std::thread::Threads;

/// Asserts that a map by chance is counted, listed and univalent, and no longer univalent with one pair more.
pub(crate) fn maps_are_told<E: Remembers>(
    rt: &impl Abort,
    alloc: Global,
    engine: &mut E,
    size: u32,
) {
    let shape = Shape {
        rows: size,
        cols: size,
    };
    'maps: for twice in [None, Some(0), Some(size / 2), Some(size.saturating_sub(1))] {
        let pairs = map_by_chance(rt, alloc, size, twice);
        let value = Value::Whole(of_pairs(rt, alloc, engine, shape, &pairs));
        assert!(rt;
            count(alloc, engine, &value) == Ok(pairs.len() as u64),
            "{twice:?}"
        );
        let Some(all) = pairs_within(alloc, engine, &value, pairs.len()) else {
            panic!(rt; "no list")
        };
        assert!(rt; all.as_slice() == pairs.as_slice(), "{twice:?}");
        let fewer = pairs_within(alloc, engine, &value, pairs.len().saturating_sub(1));
        assert!(rt; fewer.is_none(), "{twice:?}");
        assert!(rt;
            unival(alloc, engine, &value) == twice.is_none(),
            "{twice:?}"
        );
    }
}

/// The second operand of an operation on two relations of one type.
fn operand<E: Remembers>(rt: &impl Abort, engine: &mut E, op: Op, s: Rel) -> Rel
    requires { Stands (E.worker engine.old) s }
    ensures standing { Stands (E.worker engine.new) result }
    ensures keeps { Keeps (E.worker engine.old) (E.worker engine.new) }
{
    if let Op::Compose = op {
        let Ok(turned) = engine.transpose(s) else {
            panic!(rt; "no room")
        };
        return turned;
    }
    s
}

/// The answer of an operation on two thin relations by chance, with one place in so many of each.
fn answer<E: Remembers>(
    rt: &impl Abort,
    alloc: Global,
    engine: &mut E,
    op: Op,
    shape: Shape,
    one_in: (u64, u64),
    are_formed: bool,
) -> Rel {
    let first = places_by_chance(rt, alloc, shape, one_in.0, 1);
    let second = places_by_chance(rt, alloc, shape, one_in.1, 2);
    let r = of_pairs(rt, alloc, engine, shape, &first);
    let s = of_pairs(rt, alloc, engine, shape, &second);
    let t = operand(rt, engine, op, s);
    let x = valued(rt, engine, r, are_formed);
    let y = valued(rt, engine, t, are_formed);
    let sizes = Sizes { k: 0, m: 0, n: 0 };
    let value = answer_of(rt, alloc, engine, op, sizes, &x, &y);
    match whole(engine, &value) {
        Ok(all) => all,
        Err(_) => panic!(rt; "no room"),
    }
}

/// Asserts that operations on thin relations by chance of these sizes have the same answers on two wholes and on their
/// lines. Equal relations have one name in a table.
pub(crate) fn wholes_agree_with_lines<E: Remembers>(
    rt: &impl Abort,
    alloc: Global,
    engine: &mut E,
    shape: Shape,
) {
    'operations: for op in [
        Op::Union,
        Op::Inter,
        Op::Complement,
        Op::Compose,
        Op::Right,
        Op::Left,
        Op::Syq,
    ] {
        'chances: for one_in in [(40, 3), (3, 40)] {
            let wanted = answer(rt, alloc, engine, op, shape, one_in, false);
            let found = answer(rt, alloc, engine, op, shape, one_in, true);
            assert!(rt; found == wanted, "{op:?} of {shape:?}: {one_in:?}");
        }
    }
}

#[test]
fn scattered_maps_are_counted_listed_and_told_from_relations(rt: HostRuntime) {
    on_a_table(&rt, rt.alloc(), Trial::Maps(300));
    on_a_table(&rt, rt.alloc(), Trial::Maps(1025));
    on_a_table(&rt, rt.alloc(), Trial::Maps(4096));
}

#[test]
fn thin_relations_by_chance_have_one_answer_as_wholes_and_as_lines(rt: HostRuntime) {
    'shapes: for (rows, cols) in [(1, 300), (20, 1000), (112, 257), (1000, 20), (300, 112)] {
        on_a_table(&rt, rt.alloc(), Trial::Wholes(Shape { rows, cols }));
    }
}
