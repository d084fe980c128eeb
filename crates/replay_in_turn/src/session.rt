//! Recorded sessions, served at a ground one after another.

ghost use Rattle.std.specs.Prelude.{◌≡◌, [], IfOk, Some};
ghost use Rattle.std.specs.Arc.{arc_value};
ghost use Rattle.sg_outside.specs.MemWire.{traffic};
ghost use Rattle.record_file.specs.Record as records;
ghost use Rattle.replay_in_turn.specs.Sessions.{IsSetup, moment_of};
ghost use Rattle.replay_in_turn.specs.inner.Shape.{AreSessionsRun, IsServedTo, IsSessionRun};

use record_file::Recorded;
use session_run::{Setup, serve_session};
use sg_outside::{Bytes, MemWire, Memory, Wire};
use std::alloc::Global;
use std::sync::Arc;
use transcripts::{write_ended, write_title};
use write_path::{Resolved, SoloGround};

/// What a recorded session is served with: its setup, and a wire that gives what was recorded.
fn prepared(
    alloc: Global,
    program: &Arc<Resolved>,
    strict: bool,
    recorded: Recorded,
) -> Result<(Setup, MemWire), Memory>
    ensures setup { IfOk result (λ p. IsSetup (arc_value program.now) strict recorded p.0) }
    ensures wire { IfOk result (λ p. ⟦<MemWire as Wire>⟧.recorded p.1
        ≡ Some (traffic (records.results_of recorded.items) 0 [] [])) }
{
    let Recorded {
        user,
        version,
        items,
    } = recorded;
    let wire = items.into_wire(alloc)?;
    let setup = Setup {
        user,
        version,
        strict,
        program: program.clone()?,
    };
    Ok((setup, wire))
}

/// Serves a session at a ground, and prints how it ended at the end.
fn serve(
    alloc: Global,
    ground: SoloGround,
    setup: Setup,
    wire: MemWire,
    out: &mut Bytes,
) -> Result<SoloGround, Memory>
    ensures { IfOk result (λ g. IsServedTo setup (moment_of ground) (moment_of g)
        (⟦<MemWire as Wire>⟧.recorded wire) out.old out.new) }
{
    let mut wire = wire;
    let (ground, ended) = serve_session(alloc, ground, setup, &mut wire);
    let written = write_ended(&ended, wire.sent.as_slice(), out);
    drop(ended);
    drop(wire);
    match written {
        Ok(()) => Ok(ground),
        Err(fault) => {
            drop(ground);
            Err(fault)
        }
    }
}

/// Serves a recorded session at a ground, and prints it at the end with this number.
fn run_session(
    alloc: Global,
    ground: SoloGround,
    program: &Arc<Resolved>,
    strict: bool,
    number: u64,
    recorded: Recorded,
    out: &mut Bytes,
) -> Result<SoloGround, Memory>
    ensures { IfOk result (λ g. IsSessionRun (arc_value program.now) strict number recorded
        (moment_of ground) (moment_of g) out.old out.new) }
{
    session_run::laws::sessions();
    if let Err(fault) = write_title(number, &recorded.user, out) {
        drop(recorded);
        drop(ground);
        return Err(fault);
    }
    match prepared(alloc, program, strict, recorded) {
        Ok((setup, wire)) => serve(alloc, ground, setup, wire, out),
        Err(fault) => {
            drop(ground);
            Err(fault)
        }
    }
}

/// Serves recorded sessions one after another, and prints each at the end, numbered from 1.
pub fn serve_in_turn(
    alloc: Global,
    ground: SoloGround,
    program: &Arc<Resolved>,
    strict: bool,
    sessions: Vec<Recorded>,
    out: &mut Bytes,
) -> Result<SoloGround, Memory>
    ensures { IfOk result (λ g. AreSessionsRun (arc_value program.now) strict 1 sessions.items
        (moment_of ground) (moment_of g) out.old out.new) }
{
    write_path::laws::reads();
    let mut ground = ground;
    let mut number = 1;
    for recorded in sessions {
        ground = run_session(alloc, ground, program, strict, number, recorded, out)?;
        number += 1;
    }
    Ok(ground)
}
