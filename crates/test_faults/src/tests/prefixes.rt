//! Truncated texts: no proper prefix of an item is a script, and its fault is at the end or in the last word.
use crate::fault::refusal;
use lang_model::faults::ParseFault;
use lang_model::limits::SCRIPT_LIMIT;
use lang_model::syntax::Place;
use rv_parse::parse;
use std::alloc::Global;
use std::test::Fail;

/// One item of each kind, in which each line of the grammar occurs.
const ITEMS: [&str; 18] = [
    "F(R,S) = -(R|S^)&[R,S]*G(R)\\trans(R)/syq(R,S).",
    "G(R) DECL a, D = PROD(R,R), E = SUM(R,R) BEG a = p-1(D); WHILE empty(a) DO IF eq(a,R) THEN a = i-2(E); ELSE IF R THEN FI; b = --R FI OD RETURN a^^ END.",
    "H(R) BEG RETURN R END.",
    "REL A 10 20 {1:2,13; 4:5}.",
    "LET A = (B).",
    "PRINT [A,B]^.",
    "LIST dom(A).",
    "COUNT p-2(D).",
    "TYPE incl(A,B).",
    "DROP A1.",
    "AT S PRINT A.",
    "LOAD A \"a file.k2\".",
    "SAVE A|B \"b.k2\".",
    "LOAD ALL \"a file.k2\".",
    "SAVE ALL \"b.k2\".",
    "ATOMIC LET A = (B) COMMIT.",
    "ATOMIC LET A = F(B)^; LET C1 = A|B; COMMIT.",
    "EXPLAIN quot(A)\\ubd(A,B).",
];

/// Where the fault of a text is, if it is not a script.
fn place(alloc: Global, text: &[u8]) -> Option<Place> {
    if text.len() > SCRIPT_LIMIT {
        return None;
    }
    let answer = parse(alloc, text);
    match &answer {
        Ok(_) | Err(ParseFault::NoMemory) => None,
        Err(ParseFault::Byte { at, .. }) => Some(*at),
        Err(ParseFault::Expected { at, .. }) => Some(*at),
        Err(ParseFault::TooDeep { at }) => Some(*at),
        Err(ParseFault::NumberTooLarge { at }) => Some(*at),
        Err(ParseFault::NameTooLong { at }) => Some(*at),
    }
}

/// How many bytes come before the last word: those up to the last byte that is neither a letter nor a digit.
fn before_last_word(text: &[u8]) -> usize {
    let mut last = 0;
    'bytes: for place in 0..text.len() {
        if !text[place].is_ascii_alphanumeric() {
            last = place;
        }
    }
    last
}

#[test]
fn no_item_is_complete_before_its_full_stop(rt: HostRuntime) -> Result<(), Fail> {
    'items: for item in ITEMS {
        let bytes = item.as_bytes();
        let whole = refusal(rt.alloc(), bytes)?;
        assert_eq!(rt; whole.as_str(), "read", "at {item}");
        'cuts: for count in 1..bytes.len() {
            let text = &bytes[..count];
            let Some(at) = place(rt.alloc(), text) else {
                panic!(rt; "read at {count} of {item}");
            };
            let column = at.column as usize;
            assert_eq!(rt; at.line, 1);
            assert!(rt; column <= count + 1, "behind the end at {count} of {item}");
            assert!(rt;
                column > before_last_word(text),
                "too early at {count} of {item}"
            );
        }
    }
    Ok(())
}

/// Whether only blanks follow the last full stop.
fn ends_with_a_full_stop(text: &[u8]) -> bool {
    let mut ends = true;
    'bytes: for byte in text {
        if *byte == b'.' {
            ends = true;
        } else if *byte != b' ' && *byte != b'\n' {
            ends = false;
        }
    }
    ends
}

#[test]
fn a_script_may_be_cut_behind_full_stops_alone(rt: HostRuntime) -> Result<(), Fail> {
    let text =
        "REL A 2 2 {1:2}.\n\nF(R) DECL a BEG\n  a = R; WHILE empty(a) DO a = -a OD\nRETURN a END. LOAD B \"b\". PRINT F(A) | B. LET C = [A,B].\nTYPE C. ";
    let bytes = text.as_bytes();
    'cuts: for count in 0..=bytes.len() {
        let cut = &bytes[..count];
        let is_read = place(rt.alloc(), cut).is_none();
        assert_eq!(rt; is_read, ends_with_a_full_stop(cut), "at {count}");
    }
    Ok(())
}
