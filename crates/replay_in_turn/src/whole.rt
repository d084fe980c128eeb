//! The whole of a replay.

ghost use Rattle.std.specs.Prelude.{IfOk, OnOk};
ghost use Rattle.principals.specs.Script.{AreLines};
ghost use Rattle.session_threads.specs.Opening.{IsOpening};
ghost use Rattle.replay_in_turn.specs.Replay.{IsReplay};
ghost use Rattle.session_threads.specs.Opened.{HasOwnLog};
ghost use Rattle.replay_in_turn.specs.inner.Shape.{AreServed, IsReplayBy, IsScripted};
ghost use Rattle.std.specs.Arc.{arc_value};

use crate::script::run_script;
use crate::session::serve_in_turn;
use doc_board::Board;
use gateway_config::{Config, ConfigRoles, ConfigUsers};
use principals::AdminLines;
use record_file::Recorded;
use session_threads::open;
use sg_outside::{Bytes, Memory};
use std::alloc::Global;
use std::sync::Arc;
use transcripts::write_history;
use write_path::{Resolved, Shelf, SoloGround};

/// A ground whose history is that of a configuration's roles and users.
fn opened(alloc: Global, roles: &ConfigRoles, users: &ConfigUsers) -> Result<SoloGround, Memory>
    ensures opening { IfOk result (λ g. IsOpening roles.now users.now g.board.log) }
    ensures own { IfOk result (λ g. HasOwnLog g) }
{
    let board = Board::new(alloc)?;
    let mut ground = SoloGround::new(Shelf::new(board)?);
    match open(alloc, &mut ground, roles, users) {
        Ok(()) => Ok(ground),
        Err(fault) => {
            drop(ground);
            Err(fault)
        }
    }
}

/// A ground at which a script was run behind the roles and users of a configuration; the outcomes are printed at the end.
fn scripted(
    alloc: Global,
    program: &Resolved,
    strict: bool,
    roles: &ConfigRoles,
    users: &ConfigUsers,
    lines: AdminLines,
    out: &mut Bytes,
) -> Result<SoloGround, Memory>
    requires { AreLines lines }
    ensures { IfOk result
        (λ g. IsScripted program.now strict roles.now users.now lines g out.old out.new) }
{
    let mut ground = opened(alloc, roles, users)?;
    match run_script(alloc, &mut ground, program, strict, lines, out) {
        Ok(()) => Ok(ground),
        Err(fault) => {
            drop(ground);
            Err(fault)
        }
    }
}

/// Serves recorded sessions at a ground, and prints them and the journal of its history in the end.
fn serve_all(
    alloc: Global,
    ground: SoloGround,
    program: &Arc<Resolved>,
    strict: bool,
    sessions: Vec<Recorded>,
    out: &mut Bytes,
) -> Result<(), Memory>
    ensures { OnOk result (AreServed (arc_value program.now) strict sessions.items ground
        out.old out.new) }
{
    let ground = serve_in_turn(alloc, ground, program, strict, sessions, out)?;
    let shelf = ground.into_inner();
    let written = write_history(shelf.board().log(), out);
    drop(shelf);
    written
}

/// Prints the transcript of a replay by these parts of a configuration.
fn write_transcript(
    alloc: Global,
    program: &Arc<Resolved>,
    strict: bool,
    roles: &ConfigRoles,
    users: &ConfigUsers,
    lines: AdminLines,
    sessions: Vec<Recorded>,
    out: &mut Bytes,
) -> Result<(), Memory>
    requires { AreLines lines }
    ensures { OnOk result (IsReplayBy (arc_value program.now) strict roles.now users.now lines
        sessions.items out.old out.new) }
{
    match scripted(alloc, program, strict, roles, users, lines, out) {
        Ok(ground) => serve_all(alloc, ground, program, strict, sessions, out),
        Err(fault) => {
            drop(sessions);
            Err(fault)
        }
    }
}

/// Replays a script and recorded sessions over the history that a configuration begins: the script line by line, as the
/// administrator, and then the sessions one after another, all at one ground. Gives the transcript.
pub fn replay_in_turn(
    alloc: Global,
    config: &Config,
    lines: AdminLines,
    sessions: Vec<Recorded>,
) -> Result<Bytes, Memory>
    requires { AreLines lines }
    ensures { IfOk result (λ text. IsReplay config.now lines sessions.items text) }
{
    let mut out = match Bytes::from_slice(alloc, b"admin\n") {
        Ok(title) => title,
        Err(fault) => {
            drop(lines);
            drop(sessions);
            return Err(fault);
        }
    };
    let written = write_transcript(
        alloc,
        &config.program,
        !config.conflicts,
        &config.roles,
        &config.users,
        lines,
        sessions,
        &mut out,
    );
    match written {
        Ok(()) => Ok(out),
        Err(fault) => {
            drop(out);
            Err(fault)
        }
    }
}
