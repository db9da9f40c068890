//! Squares of up to 256 rows and columns as rows of bits.
#![tactic(auto)]

mod block;
mod clear;
mod close;
mod compose;
mod row;
mod scratch;
mod tables;

pub use block::{add_block, block_at};
pub use clear::is_clear;
pub use close::{row_test, rows_close};
pub use compose::rows_compose_into;
pub use row::{Row, joined};
pub use scratch::no_rows;
