//! Classes of bytes, and how far they extend.
ghost use Rattle.std.specs.Prelude.{◌≡◌, ◌≤◌, length};
ghost use Rattle.lang_model.specs.Tokens.{is_letter, is_digit, is_blank, is_sign_byte, is_allowed, run_length};
ghost use Rattle.rv_tokens.specs.Lexing.{passes};

/// Classes of bytes that form runs. 1 byte.
#[derive(Clone, Copy, Debug)]
pub enum Class {
    /// Letters, digits and `_`.
    Word,
    /// Digits.
    Digit,
    /// What may stand in a file text.
    File,
    /// What may stand in a comment.
    Comment,
}

/// `A` to `Z` and `a` to `z`.
pub fn is_letter(b: u8) -> bool
    ensures { result ≡ is_letter b }
{
    (65 <= b && b <= 90) || (97 <= b && b <= 122)
}

/// `0` to `9`.
pub fn is_digit(b: u8) -> bool
    ensures { result ≡ is_digit b }
{
    48 <= b && b <= 57
}

/// A tab, a line feed, a carriage return or a space.
pub fn is_blank(b: u8) -> bool
    ensures { result ≡ is_blank b }
{
    b == 9 || (b == 10 || (b == 13 || b == 32))
}

/// A blank or a printing byte.
pub fn is_allowed(b: u8) -> bool
    ensures { result ≡ is_allowed b }
{
    b == 9 || (b == 10 || (b == 13 || (32 <= b && b <= 126)))
}

/// One of the signs of the language.
pub fn is_sign(b: u8) -> bool
    ensures { result ≡ is_sign_byte b }
{
    b"()[]{},;:.=^-*\\/&|".contains(&b)
}

/// Whether a byte belongs to a class.
fn passes(class: Class, b: u8) -> bool
    ensures { result ≡ passes class b }
{
    match class {
        Class::Word => is_letter(b) || (is_digit(b) || b == 95),
        Class::Digit => is_digit(b),
        Class::File => 32 <= b && (b <= 126 && !(b == 34)),
        Class::Comment => is_allowed(b) && !(b == 10),
    }
}

/// How many bytes at the front belong to a class.
pub fn run(class: Class, bytes: &[u8]) -> usize
    ensures value { result ≡ run_length (passes class) bytes.now }
    ensures within { result ≤ length bytes.now }
{
    let mut n = 0;
    'each: while n < bytes.len() && passes(class, bytes[n]) {
        n += 1;
    }
    n
}
