//! Laws of evaluation. Each is a function with an empty body.
ghost use Rattle.rv_eval.specs.Faultless.{NoCallIsIll};
ghost use Rattle.rv_eval.specs.Unknown.{IllWhereUnknown, NeverIllWhereKnown};

/// In a checked script, over a state with all names of a command's expression, its meaning can be Ill only because of
/// sizes: no name is unknown, no call has the wrong number of arguments, and calls are not nested too deep.
pub fn no_call_is_ill()
    ensures { NoCallIsIll }
{}

/// The meaning is Ill only at a node that tests an unknown static size.
pub fn ill_where_unknown()
    ensures { IllWhereUnknown }
{}

/// If the walk tests no unknown static size, the meaning is never Ill.
pub fn never_ill_where_known()
    ensures { NeverIllWhereKnown }
{}
