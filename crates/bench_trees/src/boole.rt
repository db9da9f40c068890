//! Times operators on quads, cold and repeated: `bench_trees boole BITS CELLS`, over two pseudo-random relations of
//! 4096 by 4096, each of which has CELLS in a thousand cells.
ghost use Rattle.std.specs.Prelude.{◌≡◌, ◌≤◌};
ghost use Rattle.rel_model.specs.Quads.{IsKeeper, QuadStands};
ghost use Rattle.bench_trees.specs.Holding.{Holds};

use crate::squares::{Kind, name_of, square_of};
use crate::words::{number, table_bits, usage};
use pair_table::PairTable;
use quad_nodes::Nodes;
use rel_boole::{diff_quads, inter_quads, union_quads};
use rel_compose::transpose_quad;
use rel_model::Quad;
use std::alloc::Global;
use std::env::Args;
use std::io;
use std::rt::Clock;
use std::time::Instant;

/// The height of a square of 4096 rows and columns.
const HEIGHT: u8 = 12;

/// The operators that are measured.
#[derive(Clone, Copy)]
enum Operator {
    Union,
    Inter,
    Diff,
    Transpose,
}

/// The name of an operator's result; 0 if the table is full.
fn applied(nodes: &mut Nodes, operator: Operator, a: Quad, b: Quad) -> u32
    requires work { IsKeeper nodes.old }
    requires a_stands { QuadStands nodes.old a }
    requires b_stands { QuadStands nodes.old b }
    requires one_height { b.height ≡ a.height }
    ensures { Holds nodes.old nodes.new }
{
    match operator {
        Operator::Union => name_of(union_quads(nodes, a, b)),
        Operator::Inter => name_of(inter_quads(nodes, a, b)),
        Operator::Diff => name_of(diff_quads(nodes, a, b)),
        Operator::Transpose => name_of(transpose_quad(nodes, a)),
    }
}

/// Prints the nanoseconds of an operator, cold and repeated, and the name of its result.
fn measure<R: Print + Clock>(
    rt: &R,
    nodes: &mut Nodes,
    operator: Operator,
    a: Quad,
    b: Quad,
) -> io::Result<()>
    requires work { IsKeeper nodes.old }
    requires a_stands { QuadStands nodes.old a }
    requires b_stands { QuadStands nodes.old b }
    requires one_height { b.height ≡ a.height }
    ensures { Holds nodes.old nodes.new }
{
    let start = Instant::now(rt)?;
    let name = applied(nodes, operator, a, b);
    let cold = start.elapsed(rt)?.as_nanos();
    let start = Instant::now(rt)?;
    let once_more = applied(nodes, operator, a, b);
    let again = start.elapsed(rt)?.as_nanos();
    println!(rt; "{cold} {again} {name} {once_more}")
}

/// Measures each operator on two relations in a table of their own.
fn measure_all<R: Print + Clock>(rt: &R, alloc: Global, bits: u32, chance: u64) -> io::Result<()>
    requires low { 10 ≤ bits }
    requires high { bits ≤ 24 }
{
    let Ok((table, seat)) = PairTable::make(alloc, bits, 1) else {
        return Ok(());
    };
    let mut nodes = Nodes::new(&table, seat);
    let kind = Kind::Thousandths(chance);
    let Ok((a, state)) = square_of(&mut nodes, kind, HEIGHT, 1) else {
        return Ok(());
    };
    let Ok((b, _)) = square_of(&mut nodes, kind, HEIGHT, state) else {
        return Ok(());
    };
    println!(rt; "{} {}", a.name, b.name)?;
    measure(rt, &mut nodes, Operator::Union, a, b)?;
    measure(rt, &mut nodes, Operator::Inter, a, b)?;
    measure(rt, &mut nodes, Operator::Diff, a, b)?;
    measure(rt, &mut nodes, Operator::Transpose, a, b)
}

/// Measures what the words say.
pub fn run<R: Print + Clock>(rt: &R, alloc: Global, mut words: Args) -> io::Result<()> {
    let bits = table_bits(words.next());
    let chance = number(words.next());
    match bits {
        Some(bits) => measure_all(rt, alloc, bits, chance),
        None => usage(rt),
    }
}
