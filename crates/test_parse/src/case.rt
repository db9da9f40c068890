//! A case as a line: a script in which control bytes are replaced by their pictures, and repeated parts are in
//! brackets.
use crate::answer::answer;
use crate::rules::checked;
use std::alloc::Global;
use std::test::Fail;
use test_faults::{printed, refusal};

/// Sixteen definitions, each calling the one before.
const TOWER: &[u8] =
    b"A(R)=R.\nB(R)=A(R).\nC(R)=B(R).\nD(R)=C(R).\nE(R)=D(R).\nF(R)=E(R).\nG(R)=F(R).\nH(R)=G(R).\nV(R)=H(R).\nJ(R)=V(R).\nK(R)=J(R).\nM(R)=K(R).\nN(R)=M(R).\nP(R)=N(R).\nQ(R)=P(R).\nS(R)=Q(R).\n";

/// What the bytes of a line are part of.
#[derive(Clone, Copy, Debug)]
enum Inside {
    Text,
    /// After `«`: how often the part is repeated.
    Count,
    /// After the blank: the part, up to `»`.
    Part,
}

/// A line in which each part in brackets is repeated: `«3 ab»` is `ababab`.
fn repeated(alloc: Global, line: &[u8]) -> Result<Vec<u8>, Fail> {
    let mut out = Vec::new(alloc);
    let mut part: Vec<u8> = Vec::new(alloc);
    let mut count: usize = 0;
    let mut inside = Inside::Text;
    'bytes: for byte in line {
        match (inside, *byte) {
            (_, 0xc2) => {}
            (_, 0xab) => {
                count = 0;
                inside = Inside::Count;
            }
            (_, 0xbb) => {
                'times: for _ in 0..count {
                    out.extend_from_slice(part.as_slice())?;
                }
                part.clear();
                inside = Inside::Text;
            }
            (Inside::Count, b' ') => inside = Inside::Part,
            (Inside::Count, digit) => {
                count = count
                    .wrapping_mul(10)
                    .wrapping_add(usize::from(digit.wrapping_sub(b'0')));
            }
            (Inside::Part, other) => part.push(other)?,
            (Inside::Text, other) => out.push(other)?,
        }
    }
    Ok(out)
}

/// Bytes in which control bytes were replaced by their pictures, from U+2400 on.
fn without_pictures(alloc: Global, line: &[u8]) -> Result<Vec<u8>, Fail> {
    let mut bytes = Vec::new(alloc);
    let mut is_picture = false;
    'bytes: for byte in line {
        match *byte {
            0xe2 => {}
            0x90 => is_picture = true,
            other => {
                bytes.push(if is_picture {
                    other.wrapping_sub(0x80)
                } else {
                    other
                })?;
                is_picture = false;
            }
        }
    }
    Ok(bytes)
}

/// What `check` answers on a script after the sixteen definitions.
fn checked_behind_tower(alloc: Global, script: &[u8]) -> Result<String, Fail> {
    let mut text = Vec::new(alloc);
    text.extend_from_slice(TOWER)?;
    text.extend_from_slice(script)?;
    checked(alloc, text.as_slice())
}

/// The answer for a case: the script written out, or its fault. After `?`, only whether it is read; after `!`, the
/// expression of its PRINT as it is printed; after `:`, what `check` answers, and after `%` the same behind sixteen
/// definitions.
pub fn answered(alloc: Global, line: &str) -> Result<String, Fail> {
    let line = repeated(alloc, line.as_bytes())?;
    let text = without_pictures(alloc, line.as_slice())?;
    match text.as_slice() {
        [b'?', script @ ..] => refusal(alloc, script),
        [b'!', script @ ..] => printed(alloc, script),
        [b':', script @ ..] => checked(alloc, script),
        [b'%', script @ ..] => checked_behind_tower(alloc, script),
        script => answer(alloc, script),
    }
}
