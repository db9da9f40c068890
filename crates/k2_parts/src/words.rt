//! Words: a letter followed by letters, digits and `_`.
ghost use Rattle.std.specs.Prelude.{◌≡◌};
ghost use Rattle.std.specs.List.{list_all};
ghost use Rattle.lang_model.specs.Tokens.{is_letter, is_word_byte};
ghost use Rattle.run_model.specs.SharedFiles.{is_word};

use lang_model::limits::NAME_LIMIT;

/// `A` to `Z` and `a` to `z`.
fn is_letter(byte: u8) -> bool
    ensures { result ≡ is_letter byte }
{
    (65 <= byte && byte <= 90) || (97 <= byte && byte <= 122)
}

/// A letter, `0` to `9`, or `_`.
fn is_word_byte(byte: u8) -> bool
    ensures { result ≡ is_word_byte byte }
{
    is_letter(byte) || ((48 <= byte && byte <= 57) || byte == 95)
}

/// Whether all bytes may stand in a word.
fn are_word_bytes(bytes: &[u8]) -> bool
    ensures { result ≡ list_all is_word_byte bytes.now }
{
    'bytes: for byte in bytes {
        if !is_word_byte(*byte) {
            return false;
        }
    }
    true
}

/// Whether bytes are a word.
pub(crate) fn is_word(bytes: &[u8]) -> bool
    ensures { result ≡ is_word bytes.now }
{
    if bytes.is_empty() || NAME_LIMIT < bytes.len() {
        return false;
    }
    is_letter(bytes[0]) && are_word_bytes(&bytes[1..])
}
