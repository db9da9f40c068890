//! Laws of runs of batches, each the contract of a function with an empty body.
ghost use Rattle.rv_runs.specs.Past.{WholeRuns};
ghost use Rattle.rv_runs.specs.PastWords.{WordsHoldRuns};

/// Finished batches make one lawful run, in whatever order the turns came in each: what each session answered on its
/// own batch is what it answers on the whole history, with its page, its files and its cost.
pub fn batches_make_one_run()
    ensures { WholeRuns }
{}

/// The words left by batches, each begun with what lived on from the one before, hold the run: each assigned relation
/// with its value, within the cost of its batch.
pub fn words_hold_runs()
    ensures { WordsHoldRuns }
{}
