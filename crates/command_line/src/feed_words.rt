//! The words of `feed`.

ghost use Rattle.std.specs.Prelude.{◌≡◌, Err, IfOk, IsTrue, codes, false, map, string_bytes, true};
ghost use Rattle.std.specs.Option.{option_map_or};
ghost use Rattle.clap.specs.Words.{first_of, found_of, rows_of};
ghost use Rattle.sg_names.specs.Grammar.{is_name};
ghost use Rattle.command_line.specs.FeedRequest.{feed_of};
ghost use Rattle.command_line.specs.FeedWords as values;
ghost use Rattle.command_line.specs.FeedWords.{FeedWords, HasFeedValues, IsFeedWords, is_channel_list, feed_options};

use crate::channel_list::read_channels;
use crate::command_lines::feed_line;
use crate::matches::{is_command, matches_by, value_of};
use crate::words_fault::WordsFault;
use clap::ArgMatches;
use sg_history::{Key, Name, Options, TextFault};
use std::alloc::Global;

/// What `feed` is asked for.
#[derive(Drop)]
pub struct FeedRequest<'a> {
    pub journal: &'a str,
    pub user: Name,
    pub since: Key,
    pub options: Options,
}

/// Whether a flag stands among the words.
fn is_set(matches: &ArgMatches<'_>, flag: &str) -> bool
    ensures { result ≡ values.is_flag_set flag.now (rows_of (found_of matches.now)) }
{
    match value_of(matches, flag) {
        Some(text) => text == "true",
        None => false,
    }
}

/// Which rows the matches ask for.
fn read_options(alloc: Global, matches: &ArgMatches<'_>) -> Result<Options, WordsFault>
    ensures ok { IfOk result (λ o. o ≡ feed_options (rows_of (found_of matches.now))) }
    ensures list { IfOk result (λ o. IsTrue (option_map_or is_channel_list
        (first_of (codes "channels") (rows_of (found_of matches.now))) true)) }
    ensures bad { result ≡ Err WordsFault.BadWords → option_map_or is_channel_list
        (first_of (codes "channels") (rows_of (found_of matches.now))) true ≡ false }
{
    let filter = match value_of(matches, "channels") {
        Some(text) => Some(read_channels(alloc, text)?),
        None => None,
    };
    Ok(Options {
        filter,
        active_only: is_set(matches, "active-only"),
        revocations: !is_set(matches, "no-revocations"),
    })
}

/// Reads a user's name.
fn read_user(alloc: Global, text: &str) -> Result<Name, WordsFault>
    ensures ok { IfOk result (λ n. (n ≡ text.now) × IsTrue (is_name text.now)) }
    ensures bad { result ≡ Err WordsFault.BadWords → ¬ IsTrue (is_name text.now) }
{
    match Name::parse(alloc, text) {
        Ok(name) => Ok(name),
        Err(TextFault::Bad) => Err(WordsFault::BadWords),
        Err(TextFault::Memory) => Err(WordsFault::Memory),
    }
}

/// What the matches ask for.
fn read_values<'a>(alloc: Global, matches: &ArgMatches<'a>) -> Result<FeedRequest<'a>, WordsFault>
    ensures ok { IfOk result (λ r. HasFeedValues (rows_of (found_of matches.now)) (feed_of r)) }
    ensures only { IfOk result (λ r. (f : FeedWords)
        → HasFeedValues (rows_of (found_of matches.now)) f → f ≡ feed_of r) }
    ensures bad { result ≡ Err WordsFault.BadWords
        → (f : FeedWords) → ¬ HasFeedValues (rows_of (found_of matches.now)) f }
{
    let Some(journal) = value_of(matches, "journal") else {
        return Err(WordsFault::BadWords);
    };
    let Some(user) = value_of(matches, "user") else {
        return Err(WordsFault::BadWords);
    };
    let Some(since) = value_of(matches, "since") else {
        return Err(WordsFault::BadWords);
    };
    let Ok(since) = Key::parse(since) else {
        return Err(WordsFault::BadWords);
    };
    let user = read_user(alloc, user)?;
    match read_options(alloc, matches) {
        Ok(options) => Ok(FeedRequest {
            journal,
            user,
            since,
            options,
        }),
        Err(fault) => {
            drop(user);
            Err(fault)
        }
    }
}

/// Reads the words: `feed`, its flags and its option, the journal's path, the user's name, and the
/// since key.
pub fn read_feed(alloc: Global, words: &[String]) -> Result<FeedRequest<'_>, WordsFault>
    ensures ok { IfOk result
        (λ r. IsFeedWords (map (λ w. string_bytes w) words.now) (feed_of r)) }
    ensures only { IfOk result (λ r. (f : FeedWords)
        → IsFeedWords (map (λ w. string_bytes w) words.now) f → f ≡ feed_of r) }
    ensures bad { result ≡ Err WordsFault.BadWords → (f : FeedWords)
        → ¬ IsFeedWords (map (λ w. string_bytes w) words.now) f }
{
    if !is_command("feed", words) {
        return Err(WordsFault::BadWords);
    }
    let command = feed_line(alloc)?;
    let matches = matches_by(command, words)?;
    let request = read_values(alloc, &matches);
    drop(matches);
    request
}
