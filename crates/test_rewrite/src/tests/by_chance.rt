//! Random calm expressions: each step is valid, lowers the measure and keeps the value.
use crate::chance::{Columns, Draws, Sizes, expression};
use crate::grid::{Grid, Relations, value_of};
use crate::measure::size_of;
use crate::texts::are_one;
use lang_model::syntax::Expr;
use rv_rewrite::{Step, calm, check_step, rewrite};
use std::alloc::Global;
use std::process::Abort;
use std::test::Fail;

/// How many expressions are tried, and how many nodes each has at most.
const EXPRESSIONS: u64 = 100_000;

const NODES: u32 = 40;

/// How often each rule was applied, and how many nodes the largest expression had.
#[derive(Drop)]
struct Tally {
    rules: [u64; 16],
    greatest: u64,
}

/// A random relation with these sizes.
fn grid(draws: &mut Draws, rows: u32, cols: u32) -> Grid {
    let mut grid = Grid::none(rows, cols);
    let bound = draws.below(4);
    'rows: for i in 0..rows {
        'cols: for j in 0..cols {
            if draws.below(4) <= bound {
                grid.put(i, j);
            }
        }
    }
    grid
}

/// Three random relations for each pair of three sizes; the sizes are random, from 0 to 9.
fn relations(draws: &mut Draws) -> Relations {
    let sides = [draws.below(10), draws.below(10), draws.below(10)];
    let mut relations = Relations {
        grids: [Grid::none(0, 0); 27],
    };
    'grids: for number in 0..27usize {
        relations.grids[number] = grid(draws, sides[number / 3 % 3], sides[number % 3]);
    }
    relations
}

/// Whether two expressions have the same value.
fn have_one_value(relations: &Relations, a: &Expr, b: &Expr) -> bool {
    match (value_of(relations, a), value_of(relations, b)) {
        (Some(r), Some(s)) => r.is(&s),
        _ => false,
    }
}

/// Asserts that a step is valid, lowers the measure and keeps the value, and answers by how much it lowers the measure.
fn lowered_by(rt: &impl Abort, relations: &Relations, seed: u64, step: &Step) -> u64 {
    assert!(rt; check_step(step), "a step of {seed}");
    let before = size_of(&step.before).measure();
    let after = size_of(&step.after).measure();
    assert!(rt; after < before, "the measure of {seed}");
    let is_same = have_one_value(relations, &step.before, &step.after);
    assert!(rt; is_same, "the value of {seed}");
    before.wrapping_sub(after)
}

/// Asserts that the steps lead from an expression to its calm tree.
fn follow(
    rt: &impl Abort,
    alloc: Global,
    seed: u64,
    expr: &Expr,
    relations: &Relations,
    tally: &mut Tally,
) -> Result<(), Fail> {
    let found = rewrite(alloc, expr)?;
    let mut left = size_of(expr).measure();
    'steps: for step in found.steps.as_slice() {
        left = left.wrapping_sub(lowered_by(rt, relations, seed, step));
        let count = &mut tally.rules[(step.rule % 16) as usize];
        *count = count.wrapping_add(1);
    }
    assert_eq!(rt; left, size_of(&found.expr).measure(), "the end of {seed}");
    assert!(rt;
        have_one_value(relations, expr, &found.expr),
        "the calm tree of {seed}"
    );
    let alone = calm(alloc, expr)?;
    assert!(rt; are_one(alloc, &alone, &found.expr)?, "calm of {seed}");
    let again = rewrite(alloc, &alone)?;
    assert!(rt; again.steps.is_empty(), "a step more of {seed}");
    assert!(rt;
        are_one(alloc, &again.expr, &alone)?,
        "another end of {seed}"
    );
    Ok(())
}

/// Asserts the same for the expression of a seed.
fn follow_seed(rt: &impl Abort, alloc: Global, seed: u64, tally: &mut Tally) -> Result<(), Fail> {
    let mut draws = Draws::of(seed);
    let relations = relations(&mut draws);
    let sizes = Sizes {
        rows: draws.below(3) as u8,
        cols: draws.below(3) as u8,
    };
    let nodes = 1 + draws.below(NODES);
    let mut places = Columns::new();
    let expr = expression(alloc, &mut draws, &mut places, nodes, sizes)?;
    tally.greatest = tally.greatest.max(size_of(&expr).nodes);
    follow(rt, alloc, seed, &expr, &relations, tally)
}

#[test]
fn calm_expressions_by_chance_keep_their_value_step_by_step(rt: HostRuntime) -> Result<(), Fail> {
    let alloc = rt.alloc();
    let mut tally = Tally {
        rules: [0; 16],
        greatest: 0,
    };
    'seeds: for seed in 0..EXPRESSIONS {
        follow_seed(&rt, alloc, seed, &mut tally)?;
    }
    assert_eq!(&rt; tally.greatest, 40);
    'rules: for rule in 1..11 {
        assert!(&rt; tally.rules[rule] >= 1000, "rule {rule}");
    }
    Ok(())
}
