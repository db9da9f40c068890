//! The one simple command by which `clap` splits the words, and the values that it finds.
ghost use Rattle.std.specs.Prelude.{◌≡◌, ◌≢◌, false, IfOk, IfErr, None};
ghost use Rattle.clap.specs.Words.{app_of, kind_of, rule_of, with_rule};
ghost use Rattle.clap.specs.declared.error.kind.ErrorKind.TheVariants as kind;
ghost use Rattle.rv_words.specs.Uses.{uses_in, workers_name, nodes_name, turns_name, gen_name};
ghost use Rattle.rv_words.specs.Shown.{texts, Finds};
ghost use Rattle.rv_words.specs.Simple as simple;
ghost use Rattle.rv_words.specs.declared.options.WordsError.TheVariants as words_error;

use crate::WordsError;
use clap::error::ErrorKind;
use clap::{Arg, ArgAction, ArgMatches, Command, Error};
use std::alloc::{AllocError, Global};

/// An option that takes a value each time that it occurs.
fn valued<'a>(alloc: Global, name: &'a str) -> Arg<'a>
    ensures rule { rule_of result ≡ simple.valued name.now }
    ensures local { result.global ≡ false }
{
    Arg::new(alloc, name).long(name).action(ArgAction::Append)
}

/// The option `--history`, which takes no value.
fn history<'a>(alloc: Global) -> Arg<'a>
    ensures rule { rule_of result ≡ simple.history }
    ensures local { result.global ≡ false }
{
    Arg::new(alloc, "history")
        .long("history")
        .action(ArgAction::Append)
        .num_args(0)
        .default_missing_value("")
}

/// The FILE words.
fn file<'a>(alloc: Global) -> Arg<'a>
    ensures rule { rule_of result ≡ simple.file }
    ensures local { result.global ≡ false }
{
    Arg::new(alloc, "file").action(ArgAction::Append)
}

/// A command without arguments, help, version or abbreviated names.
fn bare<'a>(alloc: Global) -> Command<'a>
    ensures { app_of result ≡ simple.bare }
{
    Command::new(alloc, "relview")
        .no_binary_name(true)
        .disable_help_flag(true)
}

/// A command with one more option that takes a value.
fn with_valued<'a>(
    alloc: Global,
    command: Command<'a>,
    name: &'a str,
) -> Result<Command<'a>, AllocError>
    ensures { IfOk result (λ whole. app_of whole ≡ with_rule (app_of command.entry) (simple.valued name.now)) }
{
    command.arg(valued(alloc, name))
}

/// A command with two more options that take a value.
fn with_both<'a>(
    alloc: Global,
    command: Command<'a>,
    first: &'a str,
    second: &'a str,
) -> Result<Command<'a>, AllocError>
    ensures { IfOk result (λ whole. app_of whole
        ≡ with_rule (with_rule (app_of command.entry) (simple.valued first.now)) (simple.valued second.now)) }
{
    match with_valued(alloc, command, first) {
        Ok(half) => with_valued(alloc, half, second),
        Err(error) => Err(error),
    }
}

/// A command with the FILE words.
fn with_file<'a>(alloc: Global, command: Command<'a>) -> Result<Command<'a>, AllocError>
    ensures { IfOk result (λ whole. app_of whole ≡ with_rule (app_of command.entry) simple.file) }
{
    command.arg(file(alloc))
}

/// A command with the option `--history` and the FILE words.
fn with_rest<'a>(alloc: Global, command: Command<'a>) -> Result<Command<'a>, AllocError>
    ensures { IfOk result (λ whole. app_of whole
        ≡ with_rule (with_rule (app_of command.entry) simple.history) simple.file) }
{
    match command.arg(history(alloc)) {
        Ok(flagged) => with_file(alloc, flagged),
        Err(error) => Err(error),
    }
}

/// The command with its options that take a value.
fn with_numbers<'a>(alloc: Global) -> Result<Command<'a>, AllocError>
    ensures { IfOk result (λ command. app_of command
        ≡ with_rule (with_rule (with_rule (with_rule simple.bare (simple.valued workers_name))
        (simple.valued nodes_name)) (simple.valued turns_name)) (simple.valued gen_name)) }
{
    match with_both(alloc, bare(alloc), "workers", "nodes") {
        Ok(half) => with_both(alloc, half, "turns", "gen"),
        Err(error) => Err(error),
    }
}

/// The command.
fn command<'a>(alloc: Global) -> Result<Command<'a>, AllocError>
    ensures { IfOk result (λ command. app_of command ≡ simple.app) }
{
    match with_numbers(alloc) {
        Ok(numbers) => with_rest(alloc, numbers),
        Err(error) => Err(error),
    }
}

/// Why clap gave no result.
fn cause_of(error: &Error) -> WordsError
    ensures { result ≡ words_error.Usage → kind_of error.now ≢ kind.OutOfMemory }
{
    match error.kind() {
        ErrorKind::OutOfMemory => WordsError::NoMemory,
        _ => WordsError::Usage,
    }
}

/// What clap finds in the words.
pub fn found<'a>(alloc: Global, words: &'a [String]) -> Result<ArgMatches<'a>, WordsError>
    ensures finds { IfOk result (Finds (uses_in (texts words.now))) }
    ensures usage { IfErr result (λ error. error ≡ words_error.Usage → uses_in (texts words.now) ≡ None) }
{
    let Ok(command) = command(alloc) else {
        return Err(WordsError::NoMemory);
    };
    match command.try_get_matches_from(words) {
        Ok(matches) => Ok(matches),
        Err(error) => Err(cause_of(&error)),
    }
}
