//! The line of each refusal.
ghost use Rattle.std.specs.Prelude.{◌≡◌, true};
ghost use Rattle.run_model.specs.declared.outcome.Outcome.TheVariants.{Done};

use crate::made::{are, file, name};
use lang_model::faults::{ParseFault, StaticShape, TypeFault, What};
use lang_model::syntax::Place;
use run_model::outcome::{BadFile, Outcome, Unit};
use rv_print::fault_text;
use std::alloc::Global;
use std::process::Abort;

/// Whether an outcome says that a command is done.
fn is_done(outcome: &Outcome) -> bool
    ensures { outcome.now ≡ Done → result ≡ true }
{
    matches!(outcome, Outcome::Done)
}

/// Asserts how a refusal is reported.
fn is_told(rt: &impl Abort, alloc: Global, outcome: Outcome, wanted: &str) {
    assert!(rt; !is_done(&outcome));
    match fault_text(alloc, &outcome) {
        Ok(line) => are(rt, line.as_slice(), wanted),
        Err(_) => panic!(rt; "no memory"),
    }
}

#[test]
fn bytes_that_are_no_script_are_told_at_their_place(rt: HostRuntime) {
    let alloc = rt.alloc();
    let at = Place {
        line: 12,
        column: 7,
    };
    let token = What::Token(name(&rt, alloc, "."));
    'cases: for (fault, wanted) in [
        (
            ParseFault::Byte { at, byte: 195 },
            "refused: 12:7: byte 195 is not allowed\n",
        ),
        (
            ParseFault::Expected {
                at,
                what: What::Item,
            },
            "refused: 12:7: expected an item\n",
        ),
        (
            ParseFault::Expected {
                at,
                what: What::Expression,
            },
            "refused: 12:7: expected an expression\n",
        ),
        (
            ParseFault::Expected {
                at,
                what: What::Name,
            },
            "refused: 12:7: expected a name\n",
        ),
        (
            ParseFault::Expected {
                at,
                what: What::Number,
            },
            "refused: 12:7: expected a number\n",
        ),
        (
            ParseFault::Expected {
                at,
                what: What::NumberFromOne,
            },
            "refused: 12:7: expected a number from 1\n",
        ),
        (
            ParseFault::Expected {
                at,
                what: What::FileText,
            },
            "refused: 12:7: expected a file text\n",
        ),
        (
            ParseFault::Expected { at, what: token },
            "refused: 12:7: expected .\n",
        ),
        (
            ParseFault::TooDeep { at },
            "refused: 12:7: nested deeper than 40\n",
        ),
        (
            ParseFault::NumberTooLarge { at },
            "refused: 12:7: number over 64 bits\n",
        ),
        (
            ParseFault::NameTooLong { at },
            "refused: 12:7: name too long\n",
        ),
        (ParseFault::NoMemory, "refused: no memory\n"),
    ] {
        is_told(&rt, alloc, Outcome::Parse(fault), wanted);
    }
}

#[test]
fn scripts_without_meaning_are_told_at_their_place(rt: HostRuntime) {
    let alloc = rt.alloc();
    let at = Place { line: 1, column: 8 };
    let left = StaticShape {
        rows: Some(3),
        cols: Some(2),
    };
    let right = StaticShape {
        rows: None,
        cols: Some(4),
    };
    let unknown = StaticShape {
        rows: None,
        cols: None,
    };
    'cases: for (fault, wanted) in [
        (
            TypeFault::Unknown {
                at,
                name: name(&rt, alloc, "i-2"),
            },
            "refused: 1:8: unknown name i-2\n",
        ),
        (
            TypeFault::Arity {
                at,
                name: name(&rt, alloc, "F"),
                takes: 1,
                given: 12,
            },
            "refused: 1:8: F takes 1 arguments, not 12\n",
        ),
        (
            TypeFault::Unassigned {
                at,
                name: name(&rt, alloc, "a"),
            },
            "refused: 1:8: a may be read before it is assigned\n",
        ),
        (
            TypeFault::Rank {
                at,
                name: name(&rt, alloc, "F"),
            },
            "refused: 1:8: F has a rank over 16\n",
        ),
        (
            TypeFault::Mismatch {
                at,
                op: name(&rt, alloc, "*"),
                left,
                right,
            },
            "refused: 1:8: * does not fit 3 x 2 and ? x 4\n",
        ),
        (
            TypeFault::NotSquare {
                at,
                op: name(&rt, alloc, "trans"),
                shape: left,
            },
            "refused: 1:8: trans needs a square relation, not 3 x 2\n",
        ),
        (
            TypeFault::NotVector {
                at,
                op: name(&rt, alloc, "inj"),
                shape: unknown,
            },
            "refused: 1:8: inj needs one column, not ? x ?\n",
        ),
        (
            TypeFault::NotTest { at, shape: left },
            "refused: 1:8: a test must be 1 x 1, not 3 x 2\n",
        ),
        (
            TypeFault::Twice {
                at,
                name: name(&rt, alloc, "F"),
            },
            "refused: 1:8: F is defined twice\n",
        ),
        (TypeFault::NoMemory, "refused: no memory\n"),
    ] {
        is_told(&rt, alloc, Outcome::Ill(fault), wanted);
    }
}

#[test]
fn what_commands_come_to_is_told(rt: HostRuntime) {
    let alloc = rt.alloc();
    let at = Place {
        line: 1,
        column: 22,
    };
    'cases: for (outcome, wanted) in [
        (
            Outcome::Size {
                at,
                wanted: 33_554_432,
                limit: 16_777_216,
            },
            "refused: 1:22: size 33554432 passes the limit 16777216\n",
        ),
        (
            Outcome::Turns { at, limit: 7 },
            "refused: 1:22: more than 7 turns\n",
        ),
        (Outcome::Nodes, "refused: no free node word\n"),
        (
            Outcome::TooLarge {
                wanted: 4_000_000,
                unit: Unit::Cells,
            },
            "refused: 4000000 cells pass the limit 1048576\n",
        ),
        (
            Outcome::TooLarge {
                wanted: 4_000_000,
                unit: Unit::Pairs,
            },
            "refused: 4000000 pairs pass the limit 1048576\n",
        ),
        (
            Outcome::TooLong {
                bits: 1_466_015_503_700,
            },
            "refused: 1466015503700 bits pass the limit 67108864\n",
        ),
        (
            Outcome::NoFile {
                name: file(&rt, alloc, "a.k2"),
            },
            "refused: no file \"a.k2\"\n",
        ),
        (Outcome::NoMemory, "refused: no memory\n"),
    ] {
        is_told(&rt, alloc, outcome, wanted);
    }
}

#[test]
fn a_change_is_told_with_its_name_and_both_versions(rt: HostRuntime) {
    let alloc = rt.alloc();
    'cases: for (text, seen, found, wanted) in [
        (
            "R",
            0,
            1,
            "refused: R changed: version 0 at the read, 1 at the commit\n",
        ),
        (
            "far_away",
            u64::MAX - 1,
            u64::MAX,
            "refused: far_away changed: version 18446744073709551614 at the read, 18446744073709551615 at the commit\n",
        ),
    ] {
        let outcome = Outcome::Changed {
            name: name(&rt, alloc, text),
            seen,
            found,
        };
        is_told(&rt, alloc, outcome, wanted);
    }
}

#[test]
fn what_is_wrong_with_a_file_is_told(rt: HostRuntime) {
    let alloc = rt.alloc();
    'cases: for (kind, wanted) in [
        (BadFile::Short, "refused: file \"a.k2\" is bad: short\n"),
        (BadFile::Magic, "refused: file \"a.k2\" is bad: magic\n"),
        (BadFile::Sizes, "refused: file \"a.k2\" is bad: sizes\n"),
        (BadFile::Height, "refused: file \"a.k2\" is bad: height\n"),
        (BadFile::Lengths, "refused: file \"a.k2\" is bad: lengths\n"),
        (
            BadFile::ZeroGroup { at: 8 },
            "refused: file \"a.k2\" is bad: zero group at 8\n",
        ),
        (
            BadFile::Outside { at: 11 },
            "refused: file \"a.k2\" is bad: pair outside at 11\n",
        ),
        (BadFile::Padding, "refused: file \"a.k2\" is bad: padding\n"),
        (BadFile::Rest, "refused: file \"a.k2\" is bad: rest\n"),
    ] {
        let name = file(&rt, alloc, "a.k2");
        is_told(&rt, alloc, Outcome::BadFile { name, kind }, wanted);
    }
}
