//! How operators over the traits of a worker reason about successive calls: one record, and lemmas that chain such
//! calls. There is no code.
#![tactic(auto)]
