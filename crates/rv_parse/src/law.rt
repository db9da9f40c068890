//! A law of texts, the contract of a function with an empty body.
ghost use Rattle.rv_parse.specs.Stops.{ScriptsHaveNoFault};

/// A text that spells a script has no fault.
pub fn scripts_have_no_fault()
    ensures { ScriptsHaveNoFault }
{}
