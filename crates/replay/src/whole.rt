//! The whole of a replay.

ghost use Rattle.std.specs.Prelude.{◌≡◌, ◌≤◌, IfOk, List, length, map};
ghost use Rattle.principals.specs.Script.{AreLines};
ghost use Rattle.record_file.specs.declared.record.Recorded.{Recorded};
ghost use Rattle.replay.specs.Replay.{IsReplay, device_of};

use crate::given::{empty_shelf, sessions_of, users_of};
use crate::text::printed;
use gateway_config::Config;
use principals::AdminLines;
use record_file::Recorded;
use session_threads::{Sessions, run_sessions};
use sg_history::Name;
use sg_outside::{Bytes, MemWire, Memory, Wire};
use std::alloc::{AllocError, Global};
use std::sync::Wait;
use std::thread::Threads;

/// Runs them over a shelf of their own, and gives the transcript.
fn replayed<R: Threads + Wait + Sync>(
    rt: &R,
    alloc: Global,
    config: &Config,
    lines: AdminLines,
    users: &[Name],
    sessions: Sessions<MemWire>,
) -> Result<Bytes, Memory>
    requires lines { AreLines lines }
    requires few_lines { length lines ≤ 1073741824 }
    requires few_sessions { length sessions ≤ 1000 }
    requires as_many { length users.now ≡ length sessions }
    ensures { IfOk result (λ text. (records : List Recorded)
        → map (λ s. record {
          user = s.0;
          version = s.1;
          traffic = ⟦<MemWire as Wire>⟧.recorded s.2;
          faults = ⟦<MemWire as Wire>⟧.faults s.2;
        }) sessions ≡ map device_of records
        → users.now ≡ map (λ (r : Recorded). r.user) records
        → IsReplay config.now lines records text) }
{
    let shelf = empty_shelf(alloc)?;
    let played = run_sessions(rt, alloc, shelf, config, lines, sessions)?;
    let text = printed(alloc, users, &played);
    drop(played);
    text
}

/// The most lines of a script, and the most sessions, that are run at once. No file holds so many lines, and no command takes so many files.
const MOST_LINES: usize = 1_073_741_824;

const MOST_SESSIONS: usize = 1_000;

/// Replays a script and recorded sessions over the history that a configuration begins: the script, as the administrator, and all
/// sessions at the same time, each in a thread of its own. Gives the transcript. It may wait, for turns. Where there are more lines or
/// sessions than are run at once, that is as a want of memory.
pub fn replay<R: Threads + Wait + Sync>(
    rt: &R,
    alloc: Global,
    config: &Config,
    lines: AdminLines,
    sessions: Vec<Recorded>,
) -> Result<Bytes, Memory>
    requires { AreLines lines }
    ensures { IfOk result (λ text. IsReplay config.now lines sessions.items text) }
{
    if lines.as_slice().len() > MOST_LINES || sessions.len() > MOST_SESSIONS {
        drop(lines);
        drop(sessions);
        return Err(AllocError);
    }
    let users = users_of(alloc, sessions.as_slice())?;
    let sessions = sessions_of(alloc, sessions)?;
    replayed(rt, alloc, config, lines, users.as_slice(), sessions)
}
