//! The words of `replay`.

ghost use Rattle.std.specs.Prelude.{◌≡◌, Err, IfOk, map, string_bytes};
ghost use Rattle.clap.specs.Words.{found_of, rows_of};
ghost use Rattle.command_line.specs.ReplayRequest.{replay_of};
ghost use Rattle.command_line.specs.ReplayWords.{HasReplayValues, IsReplayWords, ReplayWords};

use crate::command_lines::replay_line;
use crate::matches::{is_command, matches_by, value_of, values_of};
use crate::words_fault::WordsFault;
use clap::ArgMatches;
use std::alloc::Global;

/// What `replay` is asked for: the paths of a configuration, of a script, and of recorded sessions.
#[derive(Drop)]
pub struct ReplayRequest<'a> {
    pub config: &'a str,
    pub admin: &'a str,
    pub sessions: Vec<&'a str>,
}

/// The most recorded sessions that a replay takes.
const MOST_SESSIONS: usize = 1000;

/// What the matches ask for.
fn read_values<'a>(alloc: Global, matches: &ArgMatches<'a>) -> Result<ReplayRequest<'a>, WordsFault>
    ensures ok { IfOk result
        (λ r. HasReplayValues (rows_of (found_of matches.now)) (replay_of r)) }
    ensures only { IfOk result (λ r. (w : ReplayWords)
        → HasReplayValues (rows_of (found_of matches.now)) w → w ≡ replay_of r) }
    ensures bad { result ≡ Err WordsFault.BadWords
        → (r : ReplayWords) → ¬ HasReplayValues (rows_of (found_of matches.now)) r }
{
    let (Some(config), Some(admin)) = (value_of(matches, "config"), value_of(matches, "admin"))
    else {
        return Err(WordsFault::BadWords);
    };
    let sessions = values_of(alloc, matches, "files")?;
    if sessions.len() > MOST_SESSIONS {
        return Err(WordsFault::BadWords);
    }
    Ok(ReplayRequest {
        config,
        admin,
        sessions,
    })
}

/// Reads the words: `replay`, and the paths of the configuration, the script, and one recorded
/// session or more.
pub fn read_replay(alloc: Global, words: &[String]) -> Result<ReplayRequest<'_>, WordsFault>
    ensures ok { IfOk result
        (λ r. IsReplayWords (map (λ w. string_bytes w) words.now) (replay_of r)) }
    ensures only { IfOk result (λ r. (w : ReplayWords)
        → IsReplayWords (map (λ w. string_bytes w) words.now) w → w ≡ replay_of r) }
    ensures bad { result ≡ Err WordsFault.BadWords
        → (r : ReplayWords) → ¬ IsReplayWords (map (λ w. string_bytes w) words.now) r }
{
    if !is_command("replay", words) {
        return Err(WordsFault::BadWords);
    }
    let command = replay_line(alloc)?;
    let matches = matches_by(command, words)?;
    let request = read_values(alloc, &matches);
    drop(matches);
    request
}
