//! What a script and sessions of one user leave over a configuration.

ghost use Rattle.std.specs.Prelude.{◌≡◌, [], IfOk};
ghost use Rattle.principals.specs.Script.{AreLines};

use doc_board::Board;
use gateway_config::{Config, read_config};
use principals::{AdminLines, read_admin};
use repl_messages::Version;
use session_threads::{Played, Sessions, run_sessions};
use sg_history::Name;
use sg_outside::Wire;
use std::alloc::Global;
use std::sync::{Arc, Wait};
use std::test::Fail;
use std::thread::Threads;
use write_path::{Resolved, Shelf};

/// A configuration with the user ann, who has the channel A.
pub const OPEN: &[u8] =
    b"{\"database\":\"db\",\"users\":[{\"name\":\"ann\",\"channels\":[\"A\"],\"session\":\"s1\"}]}";

/// The same without conflicts.
pub const STRICT: &[u8] = b"{\"database\":\"db\",\"conflicts\":false,\
\"users\":[{\"name\":\"ann\",\"channels\":[\"A\"],\"session\":\"s1\"}]}";

fn config_of(alloc: Global, text: &[u8]) -> Result<Config, Fail> {
    match read_config(alloc, text) {
        Ok(config) => Ok(config),
        Err(_) => Err(Fail::from("no configuration")),
    }
}

/// The program of a configuration.
pub fn program_of(alloc: Global, text: &[u8]) -> Result<Arc<Resolved>, Fail> {
    let config = config_of(alloc, text)?;
    Ok(config.program.clone()?)
}

fn script_of(alloc: Global, text: &[u8]) -> Result<AdminLines, Fail>
    ensures { IfOk result (λ lines. AreLines lines) }
{
    match read_admin(alloc, text) {
        Ok(lines) => Ok(lines),
        Err(_) => Err(Fail::from("no script")),
    }
}

/// The shelf without entries.
fn empty_shelf(alloc: Global) -> Result<Shelf, Fail>
    ensures empty { IfOk result (λ shelf. shelf.board.log ≡ []) }
    ensures pending { IfOk result (λ shelf. shelf.board.pending ≡ []) }
    ensures rooms { IfOk result (λ shelf. shelf.board.rooms ≡ []) }
{
    Ok(Shelf::new(Board::new(alloc)?)?)
}

/// A session of ann, by version 3, at each of these wires.
fn sessions_of<W: Wire>(alloc: Global, wires: Vec<W>) -> Result<Sessions<W>, Fail> {
    let mut sessions = Vec::new(alloc);
    for wire in wires {
        sessions.push((Name::parse(alloc, "ann")?, Version::Three, wire))?;
    }
    Ok(Sessions::from_vec(sessions))
}

/// What the script and sessions of ann at these wires leave under a configuration.
fn played_under<R: Threads + Wait + Sync, W: Wire + Send>(
    rt: &R,
    alloc: Global,
    config: &Config,
    script: &[u8],
    wires: Vec<W>,
) -> Result<Played<W>, Fail> {
    let lines = script_of(alloc, script)?;
    let sessions = match sessions_of(alloc, wires) {
        Ok(sessions) => sessions,
        Err(fail) => {
            drop(lines);
            return Err(fail);
        }
    };
    if lines.as_slice().len() > 1000 || sessions.as_slice().len() > 1000 {
        drop(lines);
        drop(sessions);
        return Err(Fail::from("too many"));
    }
    match empty_shelf(alloc) {
        Ok(shelf) => Ok(run_sessions(rt, alloc, shelf, config, lines, sessions)?),
        Err(fail) => {
            drop(lines);
            drop(sessions);
            Err(fail)
        }
    }
}

/// What the script and sessions of ann at these wires leave.
pub fn played<R: Threads + Wait + Sync, W: Wire + Send>(
    rt: &R,
    alloc: Global,
    config: &[u8],
    script: &[u8],
    wires: Vec<W>,
) -> Result<Played<W>, Fail> {
    let config = config_of(alloc, config)?;
    let played = played_under(rt, alloc, &config, script, wires);
    drop(config);
    played
}
