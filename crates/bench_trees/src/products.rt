//! Times compositions of quads, by rows if that pays and by quarters only:
//! `bench_trees products BITS HEIGHT KIND CELLS`.
//!
//! Both operands are squares of 2^HEIGHT rows. KIND is `random`, with CELLS cells in a row on average, or `cycle`,
//! `less`, `blocks` or `parity`. Each way has a table of its own with 2^BITS words, and prints a line with its name,
//! the nanoseconds, and the name of the product, or 0 if the table was full.
ghost use Rattle.std.specs.Prelude.{◌≡◌, ◌≤◌};
ghost use Rattle.rel_model.specs.Trees.{bottom_height, top_height};
ghost use Rattle.rel_model.specs.Quads.{QuadStands};

use crate::squares::{Kind, name_of, square_of};
use crate::words::{number, table_bits, usage};
use pair_table::PairTable;
use quad_nodes::Nodes;
use rel_compose::{compose_quads, compose_up_to};
use rel_model::Quad;
use std::alloc::Global;
use std::env::Args;
use std::io;
use std::rt::Clock;
use std::time::Instant;

/// The two ways to compose.
#[derive(Clone, Copy)]
enum Way {
    Rows,
    Quarters,
}

/// The name of the product of two quads; 0 if the table is full.
fn product_of(nodes: &mut Nodes, way: Way, a: Quad, b: Quad) -> u32
    requires a_stands { QuadStands nodes.old a }
    requires b_stands { QuadStands nodes.old b }
    requires one_height { b.height ≡ a.height }
{
    match way {
        Way::Rows => name_of(compose_quads(nodes, a, b)),
        Way::Quarters => name_of(compose_up_to(nodes, a, b, 0)),
    }
}

/// Prints the nanoseconds of a product and its name.
fn measure<R: Print + Clock>(
    rt: &R,
    nodes: &mut Nodes,
    way: Way,
    a: Quad,
    b: Quad,
) -> io::Result<()>
    requires a_stands { QuadStands nodes.old a }
    requires b_stands { QuadStands nodes.old b }
    requires one_height { b.height ≡ a.height }
{
    let start = Instant::now(rt)?;
    let name = product_of(nodes, way, a, b);
    let time = start.elapsed(rt)?.as_nanos();
    match way {
        Way::Rows => println!(rt; "rows {time} {name}"),
        Way::Quarters => println!(rt; "quarters {time} {name}"),
    }
}

/// Measures a product in a table of its own.
fn measure_alone<R: Print + Clock>(
    rt: &R,
    alloc: Global,
    bits: u32,
    height: u8,
    kind: Kind,
    way: Way,
) -> io::Result<()>
    requires low { 10 ≤ bits }
    requires high { bits ≤ 24 }
    requires not_low { bottom_height ≤ height }
    requires not_high { height ≤ top_height }
{
    let Ok((table, seat)) = PairTable::make(alloc, bits, 1) else {
        return println!(rt; "no table");
    };
    let mut nodes = Nodes::new(&table, seat);
    let Ok((a, state)) = square_of(&mut nodes, kind, height, 1) else {
        return println!(rt; "no operand");
    };
    let Ok((b, _)) = square_of(&mut nodes, kind, height, state) else {
        return println!(rt; "no operand");
    };
    measure(rt, &mut nodes, way, a, b)
}

/// The kind with this name.
fn kind_of(word: Option<String>, chance: u64) -> Option<Kind> {
    let word = word?;
    match word.as_str() {
        "random" => Some(Kind::Millionths(chance)),
        "cycle" => Some(Kind::Cycle),
        "less" => Some(Kind::Less),
        "blocks" => Some(Kind::Blocks),
        "parity" => Some(Kind::Parity),
        _ => None,
    }
}

/// Measures both ways.
fn measure_both<R: Print + Clock>(
    rt: &R,
    alloc: Global,
    bits: u32,
    height: u8,
    kind: Kind,
) -> io::Result<()>
    requires low { 10 ≤ bits }
    requires high { bits ≤ 24 }
    requires not_low { bottom_height ≤ height }
    requires not_high { height ≤ top_height }
{
    measure_alone(rt, alloc, bits, height, kind, Way::Rows)?;
    measure_alone(rt, alloc, bits, height, kind, Way::Quarters)
}

/// Measures what the words say.
pub fn run<R: Print + Clock>(rt: &R, alloc: Global, mut words: Args) -> io::Result<()> {
    let bits = table_bits(words.next());
    let height = number(words.next());
    let name = words.next();
    let cells = number(words.next());
    let Some(bits) = bits else {
        return usage(rt);
    };
    if height < 3 || height > 16 {
        return usage(rt);
    }
    let chance = cells.wrapping_mul(1_000_000) >> height;
    let Some(kind) = kind_of(name, chance) else {
        return usage(rt);
    };
    measure_both(rt, alloc, bits, height as u8, kind)
}
