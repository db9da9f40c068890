//! The lines of the history.
ghost use Rattle.std.specs.Prelude.{◌≡◌, ◌++◌, OnOk, IfOk};
ghost use Rattle.run_model.specs.Page.{act_text, event_line};

use crate::pieces::{push_number, push_number_after, push_sizes};
use rel_model::NoMemory;
use run_model::event::{Act, Event};
use std::alloc::{AllocError, Global};

/// Appends what an event does.
fn push_act(alloc: Global, out: &mut Vec<u8>, act: &Act) -> Result<(), AllocError>
    ensures { OnOk result (out.new.items ≡ out.old.items ++ act_text act.now) }
{
    match act {
        Act::Read => out.extend_from_slice(b"read"),
        Act::Assign { name, rel } => {
            out.extend_from_slice(b"assign ")?;
            out.extend_from_slice(name.bytes())?;
            out.extend_from_slice(b" ")?;
            push_sizes(alloc, out, rel.rows, rel.cols)
        }
        Act::Remove { name } => {
            out.extend_from_slice(b"drop ")?;
            out.extend_from_slice(name.bytes())
        }
    }
}

/// `S.C read`, `S.C assign N R x K` or `S.C drop N`, as a line.
#[tactic(auto, unfolding(run_model::specs::Page::event_line))]
pub fn event_line(alloc: Global, event: &Event) -> Result<Vec<u8>, NoMemory>
    ensures { IfOk result (λ v. v.items ≡ event_line event.now) }
{
    let mut out = Vec::new(alloc);
    push_number(alloc, &mut out, u64::from(event.session))?;
    push_number_after(alloc, &mut out, b".", u64::from(event.command))?;
    out.extend_from_slice(b" ")?;
    push_act(alloc, &mut out, &event.act)?;
    out.push(b'\n')?;
    Ok(out)
}
