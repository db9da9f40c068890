//! The listing of a relation: a line for each pair.
ghost use Rattle.std.specs.Prelude.{◌≡◌, ◌<◌, ◌≤◌, ◌++◌, ◌+◌, OnOk, IfOk, IfErr, length, codes};
ghost use Rattle.std.specs.Fmt.{decimal};
ghost use Rattle.std.specs.List.{flat_map};
ghost use Rattle.rel_model.specs.Worker.{Stands, set_of, Keeps, MakesAtMost, MissesNothing};
ghost use Rattle.run_model.specs.Limits.{list_limit};
ghost use Rattle.run_model.specs.Page.{pair_text, sizes_text, line_feed, listing};
ghost use Rattle.run_model.specs.declared.outcome.Unit.TheVariants.{Pairs};
ghost use Rattle.rv_print.specs.Listed.{with_pairs};
ghost use Rattle.rv_print.specs.Refusals.{IsOver};

use crate::limits::may_list;
use crate::pieces::{push_number, push_number_after, push_sizes};
use crate::refused::PrintRefused;
use rel_listing::pairs_of;
use rel_model::engine_trait::Engine;
use rel_model::{NoMemory, Rel, Shape};
use std::alloc::{AllocError, Global};

/// `M x N, pairs K`, and a line `I:J` for each pair, in time linear in the pairs: the listing of the relation of these
/// sizes with these pairs. The caller checks the limit.
#[tactic(auto, unfolding(run_model::specs::Page::listing))]
pub fn listing_of(alloc: Global, shape: Shape, pairs: &[(u32, u32)]) -> Result<Vec<u8>, NoMemory>
    ensures { IfOk result (λ v. v.items ≡ listing (with_pairs shape.rows shape.cols pairs.now)) }
{
    let mut out = Vec::new(alloc);
    push_head(alloc, &mut out, shape.rows, shape.cols, pairs.len() as u64)?;
    push_pairs(alloc, &mut out, pairs)?;
    Ok(out)
}

/// `M x N, pairs K`, and a line `I:J` for each pair, by row and then by column, in time linear in the pairs.
///
/// A relation with more pairs than the limit is refused before any byte is made.
#[tactic(auto, unfolding(run_model::specs::Page::listing))]
pub fn listing<E: Engine>(alloc: Global, engine: &mut E, rel: Rel) -> Result<Vec<u8>, PrintRefused>
    requires { Stands (E.worker engine.old) rel }
    ensures text { IfOk result (λ v. v.items ≡ listing (set_of (E.worker engine.old) rel)) }
    ensures within { IfOk result (λ v. length (set_of (E.worker engine.old) rel).pairs ≤ list_limit) }
    ensures over { IfErr result (IsOver list_limit (length (set_of (E.worker engine.old) rel).pairs) Pairs) }
    ensures keeps { Keeps (E.worker engine.old) (E.worker engine.new) }
    ensures room { MakesAtMost 0 (E.worker engine.old) (E.worker engine.new) }
    ensures misses { MissesNothing (E.worker engine.old) (E.worker engine.new) }
{
    let wanted = engine.count(alloc, rel)?;
    match may_list(wanted) {
        Ok(()) => {}
        Err(refused) => return Err(refused),
    }
    let pairs = pairs_of(alloc, engine, rel)?;
    let shape = Shape {
        rows: rel.rows,
        cols: rel.cols,
    };
    let text = listing_of(alloc, shape, &pairs)?;
    Ok(text)
}

/// Appends `M x N, pairs K` and a line feed.
fn push_head(
    alloc: Global,
    out: &mut Vec<u8>,
    rows: u32,
    cols: u32,
    count: u64,
) -> Result<(), AllocError>
    ensures { OnOk result (out.new.items ≡ out.old.items ++ sizes_text rows cols
        ++ codes ", pairs " ++ decimal count ++ line_feed) }
{
    push_sizes(alloc, out, rows, cols)?;
    push_number_after(alloc, out, b", pairs ", count)?;
    out.extend_from_slice(b"\n")
}

/// Appends the line of a pair, counted from 1.
fn push_pair(alloc: Global, out: &mut Vec<u8>, pair: (u32, u32)) -> Result<(), AllocError>
    ensures { OnOk result (out.new.items ≡ out.old.items ++ pair_text pair) }
{
    push_number(alloc, out, u64::from(pair.0) + 1)?;
    push_number_after(alloc, out, b":", u64::from(pair.1) + 1)?;
    out.extend_from_slice(b"\n")
}

/// Appends the lines of pairs.
fn push_pairs(alloc: Global, out: &mut Vec<u8>, pairs: &[(u32, u32)]) -> Result<(), AllocError>
    ensures { OnOk result (out.new.items ≡ out.old.items ++ flat_map pair_text pairs.now) }
{
    'pairs: for pair in pairs {
        push_pair(alloc, out, *pair)?;
    }
    Ok(())
}
