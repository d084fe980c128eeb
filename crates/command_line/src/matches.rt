//! What a command line gives of the words.

ghost use Rattle.std.specs.Prelude.{◌≡◌, ◌≢◌, [], Err, IfOk, None, Some, map, option_map, string_bytes, true};
ghost use Rattle.clap.specs.Words.{all_of, app_of, fault_of, first_of, found_of, is_simple_and_free, kind_of, matches_of, rows_of};
ghost use Rattle.clap.specs.Kinds.{Kinds, HasKind};
ghost use Rattle.command_line.specs.Matches.{begins_with};

use crate::words_fault::WordsFault;
use clap::error::ErrorKind;
use clap::{ArgMatches, Command, Error};
use std::alloc::{AllocError, Global};

/// Whether the first word is the command's name.
pub(crate) fn is_command(name: &str, words: &[String]) -> bool
    ensures { result ≡ begins_with name.now (map (λ w. string_bytes w) words.now) }
{
    match words.first() {
        Some(word) => word.as_str() == name,
        None => false,
    }
}

/// What is answered where there are no matches.
fn answer_of(error: &Error) -> WordsFault
    ensures { (kinds : Kinds) → HasKind kinds error.now → result ≡ WordsFault.BadWords
        → kinds ≢ [] }
{
    match error.kind() {
        ErrorKind::OutOfMemory => WordsFault::Memory,
        _ => WordsFault::BadWords,
    }
}

/// The matches of the words behind the first.
pub(crate) fn matches_by<'a>(
    command: Command<'a>,
    words: &'a [String],
) -> Result<ArgMatches<'a>, WordsFault>
    requires { is_simple_and_free (app_of command) ≡ true }
    ensures taken { IfOk result
        (λ m. fault_of (app_of command.entry) (map (λ w. string_bytes w) words.entry.now) ≡ []) }
    ensures rows { IfOk result (λ m. rows_of (found_of m)
        ≡ matches_of (app_of command.entry) (map (λ w. string_bytes w) words.entry.now)) }
    ensures bad { result ≡ Err WordsFault.BadWords
        → fault_of (app_of command.entry) (map (λ w. string_bytes w) words.entry.now) ≢ [] }
{
    match command.try_get_matches_from(words) {
        Ok(matches) => Ok(matches),
        Err(error) => Err(answer_of(&error)),
    }
}

/// The value of an argument, the first where it has several.
pub(crate) fn value_of<'a>(matches: &ArgMatches<'a>, id: &str) -> Option<&'a str>
    ensures { option_map (λ s. s.now) result ≡ first_of id.now (rows_of (found_of matches.now)) }
{
    matches.get_str(id)
}

/// The values of an argument.
pub(crate) fn values_of<'a>(
    alloc: Global,
    matches: &ArgMatches<'a>,
    id: &str,
) -> Result<Vec<&'a str>, WordsFault>
    ensures ok { IfOk result (λ v. all_of id.now (rows_of (found_of matches.now))
        ≡ Some (map (λ s. s.now) v.items)) }
    ensures bad { result ≡ Err WordsFault.BadWords
        → all_of id.now (rows_of (found_of matches.now)) ≡ None }
{
    match matches.get_strs(id) {
        Some(values) => Ok(copy_of(alloc, values)?),
        None => Err(WordsFault::BadWords),
    }
}

/// The same texts.
fn copy_of<'a>(alloc: Global, texts: &[&'a str]) -> Result<Vec<&'a str>, AllocError>
    ensures { IfOk result (λ v. v.items ≡ texts.now) }
{
    texts.to_vec(alloc)
}
