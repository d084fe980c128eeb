//! The server, which makes a job of each caller's line and takes in their passes.

ghost use Rattle.std.proofs.Common.{◌∙◌};
ghost use Rattle.std.specs.Prelude.{◌≡◌, ◌≤◌, ◌+◌, ◌*◌, ◌^◌, [], None, Some, length, map, refl, slice_get};
ghost use Rattle.seq_gate.specs.Passes.{first_pass, share};
ghost use Rattle.write_path.specs.Shared.{Rests};
ghost use Rattle.write_path.specs.Shelf.{shelf_state};
ghost use Rattle.session_server.specs.inner.Lines.{lines_in, AreFresh};
ghost use Rattle.session_server.specs.inner.Runs.{Holds, IsKept, IsMade};
ghost use Rattle.session_server.specs.Served.{most_callers};

use crate::caller::{Caller, Left};
use gateway_config::Config;
use gateway_server::{NoJob, Serve};
use seq_gate::{Gate, Pass};
use sg_lines::Line;
use std::alloc::Global;
use std::snapshot::Snapshot;
use std::sync::Wait;
use write_path::{SharedGround, Shelf};

/// A caller's pass gets half of so many draws.
const LEAST_DRAWS: u64 = 1 << 33;

/// Snapshots of lines, the newest first. It keeps nothing of them: only clauses see them.
#[derive(Drop)]
pub enum Lines<L: Drop> {
    Nothing,
    Then(Snapshot<Lines<L>>, Snapshot<L>),
}

/// A server behind a gate that was opened with a shelf. It has the pass from which it splits those of callers off, and clauses see the
/// lines of all callers that it made jobs of.
#[derive(Drop)]
pub struct Server<'g, R: Wait + Sync, L: Line + Send> {
    pub rt: &'g R,
    pub alloc: Global,
    pub gate: &'g Gate<Shelf>,
    pub config: &'g Config,
    pub opened: Snapshot<Shelf>,
    pub pass: Pass<Shelf>,
    pub out: u64,
    pub refused: Option<NoJob>,
    pub lines: Lines<L>,
    ghost kept: { IsKept (shelf_state opened.value) gate.now pass out refused
        (length (lines_in lines)) },
}

impl<'g, R: Wait + Sync, L: Line + Send> Server<'g, R, L> {
    /// A server that made no job yet, with the first pass of its gate.
    pub fn new(
        rt: &'g R,
        alloc: Global,
        gate: &'g Gate<Shelf>,
        config: &'g Config,
        opened: Snapshot<Shelf>,
        pass: Pass<Shelf>,
    ) -> Server<'g, R, L>
        requires here { pass.gate ≡ gate.now }
        requires first { pass.knows ≡ first_pass (shelf_state opened.value) }
        ensures gate { result.gate.now ≡ gate.now }
        ensures config { result.config.now ≡ config.now }
        ensures opened { result.opened.value ≡ opened.value }
        ensures out { result.out ≡ 0 }
        ensures refused { result.refused ≡ None }
        ensures holds { (AreFresh L.recorded (lines_in result.lines)) × Holds
            (shelf_state result.opened.value) result.config.now result.pass.knows []
            × (0 + result.out ≡ length (lines_in result.lines)) }
    {
        Server {
            rt,
            alloc,
            gate,
            config,
            opened,
            pass,
            out: 0,
            refused: None,
            lines: Lines::Nothing,
        }
    }

    /// The pass that it has.
    pub fn into_pass(self) -> Pass<Shelf>
        ensures gate { result.gate ≡ self.entry.gate.now }
        ensures knows { result.knows ≡ self.entry.pass.knows }
        ensures rests { Rests result.knows }
        ensures share { share result.knows + 2 ^ 32 * self.entry.out ≡ 2 ^ 62 }
        ensures opening { result.knows.opening
            ≡ length (shelf_state self.entry.opened.value).log }
        ensures read { slice_get result.knows.read 0 ≡ Some (shelf_state self.entry.opened.value) }
        ensures spent { self.entry.refused ≡ Some NoJob.Spent
            → most_callers ≤ length (lines_in self.entry.lines) }
    {
        self.pass
    }
}

impl<'g, R: Wait + Sync, L: Line + Send> Serve<L> for Server<'g, R, L> {
    type Job = Caller<'g, R, L>;

    ghost made = { λ s j. IsMade (shelf_state s.opened.value) s.gate.now s.config.now
        (AreFresh L.recorded (lines_in s.lines)) j.ground j.config.now (L.recorded j.line) };

    ghost out = { λ s. s.out };

    ghost refused = { λ s. s.refused };

    ghost follows = { λ s t. (t.gate.now ≡ s.gate.now) × (t.config.now ≡ s.config.now)
        × (t.opened.value ≡ s.opened.value) };

    ghost holds = { λ s traces. (AreFresh L.recorded (lines_in s.lines))
        × Holds (shelf_state s.opened.value) s.config.now s.pass.knows (map L.traced traces)
        × (length traces + s.out ≡ length (lines_in s.lines)) };

    /// A job for a caller, with a pass that is split off; the server is spent where its own pass has too few draws for another one.
    fn job(&mut self, line: L) -> Result<Caller<'g, R, L>, NoJob> {
        if self.pass.left() < LEAST_DRAWS {
            drop(line);
            self.refused = Some(NoJob::Spent);
            return Err(NoJob::Spent);
        }
        let pass = self.pass.split(self.gate);
        self.out += 1;
        self.lines = Lines::Then(Snapshot::of(&self.lines), Snapshot::of(&line));
        Ok(Caller {
            alloc: self.alloc,
            ground: SharedGround::new(self.rt, self.gate, pass),
            config: self.config,
            line,
        })
    }

    /// Takes in the pass.
    fn done(&mut self, done: Left<'g, R, L::Trace>) -> L::Trace {
        let Left { ground, trace } = done;
        self.pass.join(self.gate, ground.into_inner());
        self.out -= 1;
        trace
    }

    ghost itself = { λ s. (refl, refl, refl) };

    ghost later = { λ a b c first second. (
      second.0 ∙ first.0,
      second.1 ∙ first.1,
      second.2 ∙ first.2,
    ) };
}
