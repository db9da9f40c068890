//! The values of the options: digits and ranges.
ghost use Rattle.std.specs.Prelude.{◌≡◌, ◌≤◌, codes, map, IfSome};
ghost use Rattle.std.specs.List.{list_all};
ghost use Rattle.std.specs.Char.{is_ascii_digit};
ghost use Rattle.rv_words.specs.Said as said;
ghost use Rattle.rv_words.specs.Shown.{found_values};

use clap::ArgMatches;

/// Whether each byte is a digit.
fn all_digits(text: &[u8]) -> bool
    ensures { result ≡ list_all is_ascii_digit text.now }
{
    text.iter().all(|byte| byte.is_ascii_digit())
}

/// Whether a value is 1 to 20 digits.
fn is_number(text: &str) -> bool
    ensures { result ≡ said.is_number text.now }
{
    1 <= text.len() && (text.len() <= 20 && all_digits(text.as_bytes()))
}

/// The number that a value spells, if it is within its range.
fn number_within(text: &str, least: u64, most: u64) -> Option<u64>
    ensures number { result ≡ said.number_within least most text.now }
    ensures within { IfSome result (λ number. number ≤ most) }
{
    if !is_number(text) {
        return None;
    }
    match text.parse::<u64>() {
        Ok(number) => {
            if least <= number && number <= most {
                Some(number)
            } else {
                None
            }
        }
        Err(_) => None,
    }
}

/// The number that the values of an option give; the option occurs at most once, and without it the default counts.
fn number_of(values: &[&str], least: u64, most: u64, default: u64) -> Option<u64>
    requires { default ≤ most }
    ensures number { result ≡ said.number_or least most default (map (λ value. value.now) values.now) }
    ensures within { IfSome result (λ number. number ≤ most) }
{
    match values {
        [] => Some(default),
        [text] => number_within(text, least, most),
        [_, _, ..] => None,
    }
}

/// The number that the values of `--gen` give; it occurs at most once.
fn gen_number_of(values: &[&str]) -> Option<Option<u64>>
    ensures { result ≡ said.gen_number (map (λ value. value.now) values.now) }
{
    match values {
        [] => Some(None),
        [text] => match number_within(text, 0, u64::MAX) {
            Some(number) => Some(Some(number)),
            None => None,
        },
        [_, _, ..] => None,
    }
}

/// Whether `--history` occurs, from its values; it occurs at most once.
fn switched_by(values: &[&str]) -> Option<bool>
    ensures { result ≡ said.switched (map (λ value. value.now) values.now) }
{
    match values {
        [] => Some(false),
        [_] => Some(true),
        [_, _, ..] => None,
    }
}

/// The number of an option that clap found.
pub fn number_or(
    matches: &ArgMatches,
    name: &str,
    least: u64,
    most: u64,
    default: u64,
) -> Option<u64>
    requires { default ≤ most }
    ensures number { result ≡ said.number_or least most default (found_values matches.now name.now) }
    ensures within { IfSome result (λ number. number ≤ most) }
{
    match matches.get_raw(name) {
        Some(values) => number_of(values, least, most, default),
        None => Some(default),
    }
}

/// The number of `--gen` that clap found.
pub fn gen_number(matches: &ArgMatches) -> Option<Option<u64>>
    ensures { result ≡ said.gen_number (found_values matches.now (codes "gen")) }
{
    match matches.get_raw("gen") {
        Some(values) => gen_number_of(values),
        None => Some(None),
    }
}

/// Whether clap found `--history`.
pub fn switched(matches: &ArgMatches) -> Option<bool>
    ensures { result ≡ said.switched (found_values matches.now (codes "history")) }
{
    match matches.get_raw("history") {
        Some(values) => switched_by(values),
        None => Some(false),
    }
}
