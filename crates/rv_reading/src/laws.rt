//! The laws. Each is a function with an empty body.
ghost use Rattle.rv_reading.specs.Inputs.{ScriptsGoByTrees, ItemsGoByTrees, InputsGoByTrees};
ghost use Rattle.rv_reading.specs.Inputs.{TextsHaveOneReading, TextsAreOneInput, EveryReadingRuns};

/// Scripts with the same tree have the same flaw, and expressions and blocks with the same tree evaluate to the same in
/// both.
pub fn scripts_go_by_trees()
    ensures { ScriptsGoByTrees }
{}

/// If two items have the same tree, in scripts with the same tree, then the same is due for both, at the same cost.
pub fn items_go_by_trees()
    ensures { ItemsGoByTrees }
{}

/// Inputs with the same tree are the same input for a run: a run that is lawful for one is lawful for the other, with
/// the same page, files and costs, and words that hold it for one hold it for the other.
pub fn inputs_go_by_trees()
    ensures { InputsGoByTrees }
{}

/// Whatever the same texts are read as, the readings have the same trees. So inputs that read the same texts, with the
/// same files and options, are the same input for a run, and a run with one reading is a run with every other.
pub fn every_reading_runs()
    ensures trees { TextsHaveOneReading }
    ensures inputs { TextsAreOneInput }
    ensures runs { EveryReadingRuns }
{}
