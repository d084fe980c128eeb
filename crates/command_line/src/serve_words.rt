//! The words of `serve`.

ghost use Rattle.std.specs.Prelude.{◌≡◌, ℕ, List, Err, IfOk, map, string_bytes};
ghost use Rattle.clap.specs.Words.{found_of, rows_of};
ghost use Rattle.command_line.specs.ServeWords.{HasServeValue, IsServeWords};

use crate::command_lines::serve_line;
use crate::matches::{is_command, matches_by, value_of};
use crate::words_fault::WordsFault;
use clap::ArgMatches;
use std::alloc::Global;

/// What the matches ask for.
fn read_value<'a>(matches: &ArgMatches<'a>) -> Result<&'a str, WordsFault>
    ensures ok { IfOk result (λ r. HasServeValue (rows_of (found_of matches.now)) r.now) }
    ensures only { IfOk result (λ r. (config : List ℕ)
        → HasServeValue (rows_of (found_of matches.now)) config → config ≡ r.now) }
    ensures bad { result ≡ Err WordsFault.BadWords
        → (config : List ℕ) → ¬ HasServeValue (rows_of (found_of matches.now)) config }
{
    match value_of(matches, "config") {
        Some(config) => Ok(config),
        None => Err(WordsFault::BadWords),
    }
}

/// Reads the words: `serve`, and the path of the configuration.
pub fn read_serve(alloc: Global, words: &[String]) -> Result<&str, WordsFault>
    ensures ok { IfOk result (λ r. IsServeWords (map (λ w. string_bytes w) words.now) r.now) }
    ensures only { IfOk result (λ r. (config : List ℕ)
        → IsServeWords (map (λ w. string_bytes w) words.now) config → config ≡ r.now) }
    ensures bad { result ≡ Err WordsFault.BadWords → (config : List ℕ)
        → ¬ IsServeWords (map (λ w. string_bytes w) words.now) config }
{
    if !is_command("serve", words) {
        return Err(WordsFault::BadWords);
    }
    let command = serve_line(alloc)?;
    let matches = matches_by(command, words)?;
    let config = read_value(&matches);
    drop(matches);
    config
}
