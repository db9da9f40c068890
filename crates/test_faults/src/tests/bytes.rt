//! Each of the 256 bytes, alone, in a comment and in a file text.
use crate::fault::refusal;
use std::alloc::Global;
use std::test::Fail;

/// A text with one byte between two others.
fn around(alloc: Global, front: &[u8], byte: u8, behind: &[u8]) -> Result<Vec<u8>, Fail> {
    let mut text = Vec::new(alloc);
    text.extend_from_slice(front)?;
    text.push(byte)?;
    text.extend_from_slice(behind)?;
    Ok(text)
}

/// Whether a byte may stand in a script.
fn is_allowed(byte: u8) -> bool {
    byte == 9 || byte == 10 || byte == 13 || (32 <= byte && byte <= 126)
}

/// The answer for a text of a single byte.
fn alone(alloc: Global, byte: u8) -> Result<String, Fail> {
    let text = match byte {
        9 | 10 | 13 | 32 | b'#' => "read",
        b'L' | b'O' | b'I' => "1:1: expected an item",
        b'A'..=b'Z' | b'a'..=b'z' => "1:2: expected (",
        b'0'..=b'9' => "1:1: expected an item",
        b'"' => "1:2: expected \"",
        b'(' | b')' | b'[' | b']' | b'{' | b'}' | b',' | b';' | b':' | b'.' => {
            "1:1: expected an item"
        }
        b'=' | b'^' | b'-' | b'*' | b'\\' | b'/' | b'&' | b'|' => "1:1: expected an item",
        _ => return Ok(format!(in alloc; "1:1: byte {byte} is not allowed")?),
    };
    Ok(String::from_str(alloc, text)?)
}

#[test]
fn each_byte_alone_is_told_by_its_class(rt: HostRuntime) -> Result<(), Fail> {
    'bytes: for byte in 0..=255u8 {
        let text = around(rt.alloc(), b"", byte, b"")?;
        let given = refusal(rt.alloc(), text.as_slice())?;
        let want = alone(rt.alloc(), byte)?;
        assert_eq!(rt; given.as_str(), want.as_str(), "at {byte}");
    }
    Ok(())
}

#[test]
fn each_byte_in_a_comment(rt: HostRuntime) -> Result<(), Fail> {
    'bytes: for byte in 0..=255u8 {
        let text = around(rt.alloc(), b"# note ", byte, b"\nPRINT A.")?;
        let given = refusal(rt.alloc(), text.as_slice())?;
        if is_allowed(byte) {
            assert_eq!(rt; given.as_str(), "read", "at {byte}");
        } else {
            let want = format!(in rt.alloc(); "1:8: byte {byte} is not allowed")?;
            assert_eq!(rt; given.as_str(), want.as_str());
        }
    }
    Ok(())
}

#[test]
fn each_byte_in_a_file_text(rt: HostRuntime) -> Result<(), Fail> {
    'bytes: for byte in 0..=255u8 {
        let text = around(rt.alloc(), b"LOAD A \"x", byte, b"y\".")?;
        let given = refusal(rt.alloc(), text.as_slice())?;
        if byte == b'"' {
            assert_eq!(rt; given.as_str(), "1:11: expected .", "at {byte}");
        } else if byte < 32 && is_allowed(byte) {
            assert_eq!(rt; given.as_str(), "1:10: expected \"", "at {byte}");
        } else if is_allowed(byte) {
            assert_eq!(rt; given.as_str(), "read", "at {byte}");
        } else {
            let want = format!(in rt.alloc(); "1:10: byte {byte} is not allowed")?;
            assert_eq!(rt; given.as_str(), want.as_str());
        }
    }
    Ok(())
}
