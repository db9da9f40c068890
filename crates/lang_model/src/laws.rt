//! Laws of the language, each the contract of a function with an empty body.
ghost use Rattle.std.specs.Prelude.{◌≡◌, ◌+◌};
ghost use Rattle.lang_model.specs.Limits.{script_limit, name_limit, file_text_limit, nesting_limit, more_limit, rank_limit, compared_limit};
ghost use Rattle.lang_model.specs.Eval.{EvaluatedByNames, ComesUnlessEarly};
ghost use Rattle.lang_model.specs.Laws.{StateLaws};
ghost use Rattle.lang_model.specs.Blocks.{BlocksByNames};
ghost use Rattle.lang_model.specs.Calm.{CalmMeansTheSame, StepsEnd, StepsAreSteps};
ghost use Rattle.lang_model.specs.Sound.{StaticSizesHold};

use crate::limits::{
    COMPARED_LIMIT, FILE_TEXT_LIMIT, NAME_LIMIT, NESTING_LIMIT, PARAMETER_LIMIT, RANK_LIMIT,
    SCRIPT_LIMIT,
};

/// Each limit of a text is the same number in the code and in the definitions.
pub fn one_limit_each()
    ensures script { SCRIPT_LIMIT ≡ script_limit }
    ensures name { NAME_LIMIT ≡ name_limit }
    ensures file_text { FILE_TEXT_LIMIT ≡ file_text_limit }
    ensures nesting { NESTING_LIMIT ≡ nesting_limit }
    ensures parameters { PARAMETER_LIMIT ≡ more_limit + 1 }
    ensures rank { RANK_LIMIT ≡ rank_limit }
    ensures operands { COMPARED_LIMIT ≡ compared_limit }
{}

/// A name that is assigned has that relation, a removed name has none, and all other names stay.
pub fn laws_of_the_workspace()
    ensures { StateLaws }
{}

/// The result of an expression of a command, its cost, and its early fault depend only on the relations of the names
/// that it uses.
pub fn by_names_alone()
    ensures { EvaluatedByNames }
{}

/// An expression of a command is refused before anything is computed if it has an early fault; otherwise its result is
/// its meaning.
pub fn early_faults_come_first()
    ensures { ComesUnlessEarly }
{}

/// The results of a block depend only on the relations of the names that it reads.
pub fn blocks_by_names_alone()
    ensures { BlocksByNames }
{}

/// A static size of an expression, if known, is the size of its value.
pub fn static_sizes()
    ensures { StaticSizesHold }
{}

/// If the types of an expression fit, its calm tree has the same type and the same result.
pub fn rewriting_keeps_meanings()
    ensures { CalmMeansTheSame }
{}

/// Each step of rewriting lowers the number of nodes plus signs `^`, and no rule applies in a calm tree.
pub fn rewriting_ends()
    ensures { StepsEnd }
{}

/// Each step of rewriting replaces a calm node by the result of its rule.
pub fn rewriting_goes_by_its_rules()
    ensures { StepsAreSteps }
{}
