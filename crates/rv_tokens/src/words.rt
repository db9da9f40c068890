//! The words that are not names.
ghost use Rattle.std.specs.Prelude.{◌≡◌, map, option_map};
ghost use Rattle.lang_model.specs.BaseNames.{base_text};
ghost use Rattle.lang_model.specs.Tokens.{found_in, reserved_words, domain_operators};
ghost use Rattle.lang_model.specs.declared.token.Kind.TheVariants.{Keyword as KEYWORD, Base as BASE};
ghost use Rattle.rv_tokens.specs.Lexing.{kind_of};

use lang_model::syntax::Base;
use lang_model::token::Keyword;

/// What a reserved word stands for.
#[derive(Clone, Copy, Debug)]
pub enum Reserved {
    Keyword(Keyword),
    Base(Base),
}

const KEYWORDS: [(&str, Keyword); 28] = [
    ("REL", Keyword::Rel),
    ("LET", Keyword::Let),
    ("PRINT", Keyword::Print),
    ("LIST", Keyword::List),
    ("COUNT", Keyword::Count),
    ("TYPE", Keyword::Type),
    ("DROP", Keyword::Drop),
    ("SNAP", Keyword::Snap),
    ("AT", Keyword::At),
    ("LOAD", Keyword::Load),
    ("SAVE", Keyword::Save),
    ("DECL", Keyword::Decl),
    ("PROD", Keyword::Prod),
    ("SUM", Keyword::Sum),
    ("BEG", Keyword::Beg),
    ("END", Keyword::End),
    ("RETURN", Keyword::Return),
    ("WHILE", Keyword::While),
    ("DO", Keyword::Do),
    ("OD", Keyword::Od),
    ("IF", Keyword::If),
    ("THEN", Keyword::Then),
    ("ELSE", Keyword::Else),
    ("FI", Keyword::Fi),
    ("ALL", Keyword::All),
    ("ATOMIC", Keyword::Atomic),
    ("COMMIT", Keyword::Commit),
    ("EXPLAIN", Keyword::Explain),
];

const BASE_NAMES: [Base; 31] = [
    Base::L,
    Base::O,
    Base::I,
    Base::Ln1,
    Base::On1,
    Base::L1n,
    Base::O1n,
    Base::Dom,
    Base::Ran,
    Base::Trans,
    Base::Refl,
    Base::Epsi,
    Base::Point,
    Base::Atom,
    Base::Init,
    Base::Next,
    Base::Inj,
    Base::Empty,
    Base::Unival,
    Base::Less,
    Base::Hasse,
    Base::Quot,
    Base::Syq,
    Base::Eq,
    Base::Incl,
    Base::Ubd,
    Base::Lbd,
    Base::Least,
    Base::Greatest,
    Base::Sup,
    Base::Inf,
];

const DOMAIN_OPERATORS: [Base; 4] = [Base::P1, Base::P2, Base::I1, Base::I2];

/// The keyword of the first entry with this text.
fn keyword(text: &[u8], table: &[(&str, Keyword)]) -> Option<Keyword>
    ensures { option_map KEYWORD result ≡ found_in text.now (map (λ e. (e.0.now, KEYWORD e.1)) table.now) }
{
    'each: for (entry, keyword) in table {
        if entry.as_bytes() == text {
            return Some(*keyword);
        }
    }
    None
}

/// The first of these with this text.
fn base(text: &[u8], bases: &[Base]) -> Option<Base>
    ensures { option_map BASE result ≡ found_in text.now (map (λ base. (base_text base, BASE base)) bases.now) }
{
    'each: for base in bases {
        if base.text() == text {
            return Some(*base);
        }
    }
    None
}

/// What a reserved word stands for.
pub fn reserved_word(word: &[u8]) -> Option<Reserved>
    ensures { option_map kind_of result ≡ found_in word.now reserved_words }
{
    match keyword(word, &KEYWORDS) {
        Some(keyword) => Some(Reserved::Keyword(keyword)),
        None => match base(word, &BASE_NAMES) {
            Some(base) => Some(Reserved::Base(base)),
            None => None,
        },
    }
}

/// What a domain operator stands for.
#[tactic(auto, unfolding(lang_model::specs::Tokens::domain_operators))]
pub fn domain_operator(text: &[u8]) -> Option<Reserved>
    ensures { option_map kind_of result ≡ found_in text.now domain_operators }
{
    match base(text, &DOMAIN_OPERATORS) {
        Some(base) => Some(Reserved::Base(base)),
        None => None,
    }
}
