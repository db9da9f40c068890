ghost use Rattle.std.specs.Prelude.{◌≡◌, ◌≤◌, ◌<◌, IfOk};
ghost use Rattle.rel_model.specs.Relation.{size_limit};
ghost use Rattle.rel_model.specs.Worker.{Stands, Keeps};
ghost use Rattle.rel_plain.specs.Kept.{worker_of};

use rel_model::core_trait::Core;
use rel_model::{Lack, Rel, Shape};
use rel_plain::Plain;
use std::alloc::{AllocError, Global};
use std::process::Abort;

/// The operators of two relations of one type.
#[derive(Clone, Copy, Debug)]
enum Operator {
    Union,
    Intersection,
    Difference,
}

/// Whether the pair is listed, by comparing it with each.
fn is_listed(list: &[(u32, u32)], i: u32, j: u32) -> bool {
    let mut found = false;
    for &(row, col) in list {
        if row == i && col == j {
            found = true;
        }
    }
    found
}

/// Whether a pair of the first list is in the second, by comparing all.
fn have_common(first: &[(u32, u32)], second: &[(u32, u32)]) -> bool {
    let mut found = false;
    for &(row, col) in first {
        if is_listed(second, row, col) {
            found = true;
        }
    }
    found
}

/// The pairs that a number encodes: bit `i * cols + j` is the pair (i, j).
fn listed(alloc: Global, shape: Shape, number: u32) -> Result<Vec<(u32, u32)>, AllocError> {
    let mut list = Vec::new(alloc);
    let mut left = number;
    for i in 0..shape.rows {
        for j in 0..shape.cols {
            if left % 2 == 1 {
                list.push((i, j))?;
            }
            left /= 2;
        }
    }
    Ok(list)
}

/// The listed pairs turned round.
fn turned_list(alloc: Global, list: &[(u32, u32)]) -> Result<Vec<(u32, u32)>, AllocError> {
    let mut out = Vec::new(alloc);
    for &(i, j) in list {
        out.push((j, i))?;
    }
    Ok(out)
}

/// The pairs of an operator's result, by its membership formula at each pair of the grid.
fn expected(
    alloc: Global,
    shape: Shape,
    operator: Operator,
    left: &[(u32, u32)],
    right: &[(u32, u32)],
) -> Result<Vec<(u32, u32)>, AllocError> {
    let mut out = Vec::new(alloc);
    for i in 0..shape.rows {
        for j in 0..shape.cols {
            let in_left = is_listed(left, i, j);
            let in_right = is_listed(right, i, j);
            let is_in = match operator {
                Operator::Union => in_left || in_right,
                Operator::Intersection => in_left && in_right,
                Operator::Difference => in_left && !in_right,
            };
            if is_in {
                out.push((i, j))?;
            }
        }
    }
    Ok(out)
}

/// The relation of the listed pairs, as a union of single pairs.
fn built(core: &mut Plain, shape: Shape, list: &[(u32, u32)]) -> Result<Rel, Lack>
    requires row_limit { shape.rows ≤ size_limit }
    requires col_limit { shape.cols ≤ size_limit }
    ensures stands { IfOk result (λ r. Stands (worker_of core.new) r) }
    ensures rows { IfOk result (λ r. r.rows ≡ shape.rows) }
    ensures cols { IfOk result (λ r. r.cols ≡ shape.cols) }
    ensures keeps { Keeps (worker_of core.old) (worker_of core.new) }
{
    let mut all = core.empty(shape)?;
    'pairs: for place in 0..list.len() {
        let (i, j) = list[place];
        if i < shape.rows && j < shape.cols {
            let one = core.single(shape, i, j)?;
            all = core.union(all, one)?;
        }
    }
    Ok(all)
}

/// Whether row i of a relation has exactly the listed pairs.
fn is_row(core: &mut Plain, r: Rel, i: u32, list: &[(u32, u32)]) -> bool
    requires standing { Stands (worker_of core.old) r }
    requires row { i < r.rows }
    ensures keeps { Keeps (worker_of core.old) (worker_of core.new) }
{
    let mut agrees = true;
    'cols: for j in 0..r.cols {
        let found = core.has(r, i, j);
        if found != is_listed(list, i, j) {
            agrees = false;
        }
    }
    agrees
}

/// Whether a relation has exactly the listed pairs of its sizes.
fn is_list(core: &mut Plain, r: Rel, list: &[(u32, u32)]) -> bool
    requires { Stands (worker_of core.old) r }
    ensures keeps { Keeps (worker_of core.old) (worker_of core.new) }
{
    let mut agrees = true;
    'rows: for i in 0..r.rows {
        if !is_row(core, r, i, list) {
            agrees = false;
        }
    }
    agrees
}

/// Whether a relation has the pairs of an operator's formula.
fn is_expected(
    alloc: Global,
    core: &mut Plain,
    r: Rel,
    shape: Shape,
    operator: Operator,
    left: &[(u32, u32)],
    right: &[(u32, u32)],
) -> Result<bool, Lack>
    requires { Stands (worker_of core.old) r }
    ensures keeps { Keeps (worker_of core.old) (worker_of core.new) }
{
    let want = expected(alloc, shape, operator, left, right)?;
    Ok(is_list(core, r, &want))
}

/// Whether each operator on two relations of listed pairs agrees with its formula.
fn operators_agree(
    alloc: Global,
    core: &mut Plain,
    shape: Shape,
    pairs: (Rel, Rel),
    left: &[(u32, u32)],
    right: &[(u32, u32)],
) -> Result<bool, Lack>
    requires first { Stands (worker_of core.old) pairs.0 }
    requires second { Stands (worker_of core.old) pairs.1 }
    requires rows { pairs.0.rows ≡ pairs.1.rows }
    requires cols { pairs.0.cols ≡ pairs.1.cols }
    ensures keeps { Keeps (worker_of core.old) (worker_of core.new) }
{
    let (r, s) = pairs;
    let either = core.union(r, s)?;
    let both = core.inter(r, s)?;
    let rest = core.diff(r, s)?;
    let is_either = is_expected(alloc, core, either, shape, Operator::Union, left, right)?;
    let is_both = is_expected(
        alloc,
        core,
        both,
        shape,
        Operator::Intersection,
        left,
        right,
    )?;
    let is_rest = is_expected(alloc, core, rest, shape, Operator::Difference, left, right)?;
    Ok(is_either && is_both && is_rest)
}

/// Whether each call on two relations of listed pairs agrees with its formula, and leaves both as they were.
fn lists_agree(
    alloc: Global,
    shape: Shape,
    first: &[(u32, u32)],
    second: &[(u32, u32)],
    are_same: bool,
) -> Result<bool, Lack>
    requires row_limit { shape.rows ≤ size_limit }
    requires col_limit { shape.cols ≤ size_limit }
{
    let mut core = Plain::new(alloc);
    let r = built(&mut core, shape, first)?;
    let s = built(&mut core, shape, second)?;
    let is_same = core.same(r, s) == are_same;
    let meet = core.meets(r, s) == have_common(first, second);
    let agree = operators_agree(alloc, &mut core, shape, (r, s), first, second)?;
    let stood = is_list(&mut core, r, first) && is_list(&mut core, s, second);
    Ok(is_same && meet && agree && stood)
}

/// The same for two relations given by numbers.
fn pair_agrees(alloc: Global, shape: Shape, left: u32, right: u32) -> Result<bool, Lack>
    requires row_limit { shape.rows ≤ size_limit }
    requires col_limit { shape.cols ≤ size_limit }
{
    let first = listed(alloc, shape, left)?;
    let second = listed(alloc, shape, right)?;
    lists_agree(alloc, shape, &first, &second, left == right)
}

/// Whether emptiness and transposition of the relation with this number agree with their formulas, and transposing
/// twice gives it back.
fn one_agrees(alloc: Global, shape: Shape, number: u32) -> Result<bool, Lack>
    requires row_limit { shape.rows ≤ size_limit }
    requires col_limit { shape.cols ≤ size_limit }
{
    let list = listed(alloc, shape, number)?;
    let turned_round = turned_list(alloc, &list)?;
    let mut core = Plain::new(alloc);
    let r = built(&mut core, shape, &list)?;
    let once = core.transpose(r)?;
    let twice = core.transpose(once)?;
    let is_turned = once.rows == shape.cols && once.cols == shape.rows;
    let is_empty = core.is_empty(r) == list.is_empty();
    let is_again = core.same(twice, r);
    let is_once = is_list(&mut core, once, &turned_round);
    let stood = is_list(&mut core, r, &list);
    Ok(is_turned && is_empty && is_again && is_once && stood)
}

/// Whether the empty and the full relation of these sizes, and that of each single pair, agree with their formulas.
fn makers_agree(alloc: Global, shape: Shape, all: u32) -> Result<bool, Lack>
    requires row_limit { shape.rows ≤ size_limit }
    requires col_limit { shape.cols ≤ size_limit }
{
    let whole = listed(alloc, shape, all)?;
    let mut core = Plain::new(alloc);
    let none = core.empty(shape)?;
    let full = core.full(shape)?;
    let mut agrees = is_list(&mut core, none, &[]) && is_list(&mut core, full, &whole);
    for &(i, j) in &whole {
        if i < shape.rows && j < shape.cols {
            let one = core.single(shape, i, j)?;
            agrees = agrees && is_list(&mut core, one, &[(i, j)]);
        }
    }
    Ok(agrees)
}

/// Whether two relations stand with their pairs after each operator, even if it is refused.
fn stands_after_each_call(alloc: Global) -> Result<bool, Lack> {
    let shape = Shape { rows: 2, cols: 2 };
    let first = listed(alloc, shape, 7)?;
    let second = listed(alloc, shape, 10)?;
    let mut core = Plain::new(alloc);
    let r = built(&mut core, shape, &first)?;
    let s = built(&mut core, shape, &second)?;
    let _ = core.empty(shape);
    let _ = core.full(shape);
    let _ = core.single(shape, 1, 0);
    let _ = core.union(r, s);
    let _ = core.inter(r, s);
    let _ = core.diff(r, s);
    let _ = core.transpose(r);
    Ok(is_list(&mut core, r, &first) && is_list(&mut core, s, &second))
}

/// How many relations there are of these sizes, up to 2.
fn relations_of(rows: u32, cols: u32) -> u32 {
    if rows == 0 || cols == 0 {
        1
    } else if rows == 1 && cols == 1 {
        2
    } else if rows == 1 || cols == 1 {
        4
    } else {
        16
    }
}

/// Relations of 3 rows and 5 columns: none, one pair at each end, a row, a column, a diagonal, a chequer and all.
const LARGE: [u32; 8] = [0, 1, 16384, 992, 4228, 4161, 21845, 32767];

/// Three rows and five columns.
const SHAPE: Shape = Shape { rows: 3, cols: 5 };

/// Asserts that calls on each two relations of these sizes agree with their formulas.
fn assert_pairs(rt: &impl Abort, alloc: Global, rows: u32, cols: u32)
    requires row_limit { rows ≤ size_limit }
    requires col_limit { cols ≤ size_limit }
{
    let shape = Shape { rows, cols };
    let count = relations_of(rows, cols);
    for left in 0..count {
        for right in 0..count {
            let agrees = pair_agrees(alloc, shape, left, right) == Ok(true);
            assert!(rt; agrees, "{rows} x {cols}: {left} and {right}");
        }
    }
}

#[test]
fn every_two_relations_of_sizes_up_to_2_answer_by_the_formulas(rt: HostRuntime) {
    let alloc = rt.alloc();
    for rows in 0..3 {
        for cols in 0..3 {
            assert_pairs(&rt, alloc, rows, cols);
        }
    }
}

/// Asserts that transposition and emptiness of each relation of these sizes, and the calls that make relations, agree
/// with their formulas.
fn assert_ones(rt: &impl Abort, alloc: Global, rows: u32, cols: u32)
    requires row_limit { rows ≤ size_limit }
    requires col_limit { cols ≤ size_limit }
{
    let shape = Shape { rows, cols };
    let count = relations_of(rows, cols);
    for number in 0..count {
        let agrees = one_agrees(alloc, shape, number) == Ok(true);
        assert!(rt; agrees, "{rows} x {cols}: {number}");
    }
    let agree = makers_agree(alloc, shape, count.saturating_sub(1)) == Ok(true);
    assert!(rt; agree, "{rows} x {cols}");
}

#[test]
fn each_relation_of_sizes_up_to_2_is_transposed_and_tested_for_emptiness(rt: HostRuntime) {
    let alloc = rt.alloc();
    for rows in 0..3 {
        for cols in 0..3 {
            assert_ones(&rt, alloc, rows, cols);
        }
    }
}

#[test]
fn relations_of_3_rows_and_5_columns_answer_by_the_formulas(rt: HostRuntime) {
    let alloc = rt.alloc();
    for left in LARGE {
        for right in LARGE {
            let agrees = pair_agrees(alloc, SHAPE, left, right) == Ok(true);
            assert!(rt; agrees, "{left} and {right}");
        }
        assert!(rt; one_agrees(alloc, SHAPE, left) == Ok(true), "{left}");
    }
    assert!(rt; makers_agree(alloc, SHAPE, 32767) == Ok(true));
}

#[test]
fn what_stood_stands_after_a_refused_allocation(rt: HostRuntime) {
    let alloc = rt.alloc();
    assert!(rt; stands_after_each_call(alloc) == Ok(true));
}
