//! Bytes written in hexadecimal digits.
ghost use Rattle.std.specs.Prelude.{◌<◌, IfSome};

use crate::made::put;
use std::alloc::Global;
use std::process::Abort;

/// The value of a digit.
fn digit(byte: u8) -> Option<u8>
    ensures { IfSome result (λ d. d < 16) }
{
    match byte {
        b'0'..=b'9' => Some(byte - b'0'),
        b'a'..=b'f' => Some(byte - b'a' + 10),
        _ => None,
    }
}

/// The bytes that a text spells in digits. Other characters only separate them.
pub(crate) fn bytes_of(rt: &impl Abort, alloc: Global, text: &str) -> Vec<u8> {
    let mut out = Vec::new(alloc);
    let mut high = None;
    'digits: for byte in text.as_bytes() {
        let Some(low) = digit(*byte) else {
            continue 'digits;
        };
        match high {
            None => high = Some(low),
            Some(first) => {
                put(rt, &mut out, low.wrapping_add(16u8.wrapping_mul(first)));
                high = None;
            }
        }
    }
    out
}
