//! Runs: all sessions of a batch at once on one book of names, from the bytes of the scripts to their answers; the page
//! of all batches; and that batches make one run.
#![tactic(auto)]

mod batch;
mod ended;
mod page;
mod together;
mod whole;
mod work;

pub use batch::run_batch;
pub use ended::BatchEnd;
pub use page::{make_page, take_apart};
pub use whole::{batches_make_one_run, words_hold_runs};
