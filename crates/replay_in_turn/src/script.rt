//! A script, run line by line at a ground.

ghost use Rattle.std.specs.Prelude.{◌≡◌, ◌++◌, false, OnOk};
ghost use Rattle.principals.specs.Script.{AreLines, IsScriptLine};
ghost use Rattle.session_threads.specs.Opened.{HasOwnLog};
ghost use Rattle.transcripts.specs.Transcript.{outcome_line};
ghost use Rattle.replay_in_turn.specs.Script.{IsLineRun, IsWritten};
ghost use Rattle.replay_in_turn.specs.inner.Shape.{IsScriptRun};

use principals::{AdminLine, AdminLines};
use repl_messages::Revision;
use session_threads::{own_revision, run_command};
use sg_outside::{Bytes, Memory};
use std::alloc::Global;
use transcripts::write_outcome;
use write_path::{Ground, Outcome, Resolved, SoloGround};

/// Proposes a revision as the administrator.
fn propose(
    alloc: Global,
    ground: &mut SoloGround,
    program: &Resolved,
    strict: bool,
    revision: Revision,
) -> Outcome
    requires plain { revision.noconflicts ≡ false }
    requires own { HasOwnLog ground.old }
    ensures written { IsWritten program.now strict ground.old.board.log revision result
        ground.new.board.log }
    ensures own { HasOwnLog ground.new }
{
    write_path::laws::own_entries();
    ground.propose(alloc, program, None, strict, revision)
}

/// Runs a line. Where there is no memory for its revision, nothing is proposed.
fn run_line(
    alloc: Global,
    ground: &mut SoloGround,
    program: &Resolved,
    strict: bool,
    line: AdminLine,
) -> Outcome
    requires line { IsScriptLine line }
    requires own { HasOwnLog ground.old }
    ensures line { IsLineRun program.now strict ground.old.board.log line result
        ground.new.board.log }
    ensures own { HasOwnLog ground.new }
{
    match line {
        AdminLine::Command(command) => run_command(ground, command),
        AdminLine::Doc {
            doc,
            parent,
            deleted,
            body,
        } => match own_revision(alloc, doc, parent, deleted, body) {
            Ok(revision) => propose(alloc, ground, program, strict, revision),
            Err(_) => Outcome::Memory507,
        },
    }
}

/// Prints the outcome of a line at the end.
fn print_outcome(
    alloc: Global,
    number: u64,
    outcome: Outcome,
    out: &mut Bytes,
) -> Result<(), Memory>
    ensures { OnOk result (out.new ≡ out.old ++ outcome_line number outcome) }
{
    write_outcome(alloc, number, &outcome, out)
}

/// Runs the lines of a script one after another, and prints the outcome of each at the end.
pub fn run_script(
    alloc: Global,
    ground: &mut SoloGround,
    program: &Resolved,
    strict: bool,
    lines: AdminLines,
    out: &mut Bytes,
) -> Result<(), Memory>
    requires lines { AreLines lines }
    requires own { HasOwnLog ground.old }
    ensures run { OnOk result (IsScriptRun program.now strict 2 lines ground.old.board.log
        ground.new.board.log out.old out.new) }
    ensures own { HasOwnLog ground.new }
{
    let mut number = 2;
    for line in lines.into_vec() {
        let outcome = run_line(alloc, ground, program, strict, line);
        print_outcome(alloc, number, outcome, out)?;
        number += 1;
    }
    Ok(())
}
