//! Laws of texts and trees, each the contract of a function with an empty body.
ghost use Rattle.rv_spell.specs.Plain.{OneScript};
ghost use Rattle.rv_spell.specs.SameTrees.{SameExceptPlaces};

/// A text spells at most one script: whatever scripts its bytes spell, they have the same tree, with all places.
pub fn one_script()
    ensures { OneScript }
{}

/// Rewriting regards two trees as equal if and only if they differ in places only.
pub fn same_except_places()
    ensures { SameExceptPlaces }
{}
