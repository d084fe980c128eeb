//! A script, run with a pass of a gate.

ghost use Rattle.std.specs.Prelude.{◌≡◌, ◌≤◌, ◌*◌, [], length, vec_capacity};
ghost use Rattle.principals.specs.Script.{AreLines};
ghost use Rattle.write_path.specs.Shared.{Rests};
ghost use Rattle.session_threads.specs.inner.Runs.{IsScriptDone};

use crate::line::run_lines;
use crate::played::LineOutcome;
use principals::AdminLines;
use seq_gate::{Gate, Pass};
use std::alloc::Global;
use std::sync::Wait;
use write_path::{Resolved, SharedGround, Shelf};

/// Runs a script at a ground of this pass, puts the outcome of each line into a place that is there, and gives the pass back.
pub fn run_script<R: Wait + Sync>(
    rt: &R,
    alloc: Global,
    gate: &Gate<Shelf>,
    pass: Pass<Shelf>,
    program: &Resolved,
    strict: bool,
    lines: AdminLines,
    outcomes: &mut Vec<LineOutcome>,
) -> Pass<Shelf>
    requires here { pass.gate ≡ gate.now }
    requires rested { Rests pass.knows }
    requires draws { 2 * length lines ≤ pass.knows.left }
    requires lawful { AreLines lines }
    requires room { length lines ≤ vec_capacity outcomes.old }
    requires none { outcomes.old.items ≡ [] }
    ensures { IsScriptDone gate.now pass.knows program.now strict lines result outcomes.new.items }
{
    let mut ground = SharedGround::new(rt, gate, pass);
    run_lines(
        alloc,
        &mut ground,
        program,
        strict,
        lines.into_vec(),
        outcomes,
    );
    ground.into_inner()
}
