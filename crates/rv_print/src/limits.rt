//! The limits of what is listed and of what is printed.
ghost use Rattle.std.specs.Prelude.{◌≡◌, ◌*◌, ◌≤◌, IfOk, IfErr};
ghost use Rattle.run_model.specs.Limits.{print_limit, list_limit};
ghost use Rattle.run_model.specs.declared.outcome.Unit.TheVariants.{Cells, Pairs};
ghost use Rattle.rv_print.specs.Refusals.{IsOver};
ghost use Rattle.rv_print.specs.declared.refused.PrintRefused.TheVariants.{TooLarge};

use crate::refused::PrintRefused;
use rel_model::Shape;
use run_model::limits::{LIST_LIMIT, PRINT_LIMIT};
use run_model::outcome::Unit;

/// Refuses the listing of more pairs than the limit.
pub fn may_list(count: u64) -> Result<(), PrintRefused>
    ensures within { IfOk result (λ _. count ≤ list_limit) }
    ensures over { IfErr result (IsOver list_limit count Pairs) }
    ensures told { IfErr result (λ e. e ≡ TooLarge count Pairs) }
{
    if LIST_LIMIT < count {
        return Err(PrintRefused::TooLarge {
            wanted: count,
            unit: Unit::Pairs,
        });
    }
    Ok(())
}

/// Refuses the matrix of a relation with more cells than the limit.
pub fn may_print(shape: Shape) -> Result<(), PrintRefused>
    ensures within { IfOk result (λ _. shape.rows * shape.cols ≤ print_limit) }
    ensures over { IfErr result (IsOver print_limit (shape.rows * shape.cols) Cells) }
    ensures told { IfErr result (λ e. e ≡ TooLarge (shape.rows * shape.cols) Cells) }
{
    let wanted = u64::from(shape.rows) * u64::from(shape.cols);
    if PRINT_LIMIT < wanted {
        return Err(PrintRefused::TooLarge {
            wanted,
            unit: Unit::Cells,
        });
    }
    Ok(())
}
