//! A case as a line: an expression in which repeated parts are in brackets.
use std::alloc::Global;
use std::test::Fail;

/// What the bytes of a line are part of.
#[derive(Clone, Copy, Debug)]
enum Inside {
    Text,
    /// After `«`: how often the part is repeated.
    Count,
    /// After the blank: the part, up to `»`.
    Part,
}

/// A line in which each part in brackets is repeated: `«3 ab»` is `ababab`.
pub fn repeated(alloc: Global, line: &[u8]) -> Result<Vec<u8>, Fail> {
    let mut out = Vec::new(alloc);
    let mut part: Vec<u8> = Vec::new(alloc);
    let mut count: usize = 0;
    let mut inside = Inside::Text;
    'bytes: for byte in line {
        match (inside, *byte) {
            (_, 0xc2) => {}
            (_, 0xab) => {
                count = 0;
                inside = Inside::Count;
            }
            (_, 0xbb) => {
                'times: for _ in 0..count {
                    out.extend_from_slice(part.as_slice())?;
                }
                part.clear();
                inside = Inside::Text;
            }
            (Inside::Count, b' ') => inside = Inside::Part,
            (Inside::Count, digit) => {
                count = count
                    .wrapping_mul(10)
                    .wrapping_add(usize::from(digit.wrapping_sub(b'0')));
            }
            (Inside::Part, other) => part.push(other)?,
            (Inside::Text, other) => out.push(other)?,
        }
    }
    Ok(out)
}
