//! What is made before the first thread is started: setups, and the jobs with their grounds.

ghost use Rattle.std.specs.Prelude.{◌≡◌, ◌≤◌, ◌+◌, ◌*◌, ◌^◌, [], length, vec_capacity, IfOk};
ghost use Rattle.std.specs.Arc.{arc_value};
ghost use Rattle.seq_gate.specs.Passes.{split_from, split_off};
ghost use Rattle.session_threads.specs.Pairs.{AllPairs};
ghost use Rattle.session_threads.specs.inner.Runs.{IsLessBy, IsReadyFor};

use crate::played::Sessions;
use crate::session::SessionJob;
use repl_messages::Version;
use seq_gate::{Gate, Pass};
use session_run::Setup;
use sg_history::Name;
use sg_outside::{Memory, Wire};
use std::alloc::Global;
use std::sync::{Arc, Wait};
use write_path::{Resolved, SharedGround, Shelf};

/// A vector without items, with so many places.
pub fn with_places<T: Drop>(alloc: Global, count: usize) -> Result<Vec<T>, Memory>
    ensures room { IfOk result (λ v. count ≤ vec_capacity v) }
    ensures none { IfOk result (λ v. v.items ≡ []) }
{
    let mut items = Vec::new(alloc);
    items.reserve(count)?;
    Ok(items)
}

/// A session that is to be served: its setup, and its wire.
#[derive(Drop)]
pub struct Ready<W: Wire> {
    pub setup: Setup,
    pub wire: W,
}

/// The setup of a session, with its own share of the program.
fn set_up<W: Wire>(
    program: &Arc<Resolved>,
    strict: bool,
    session: (Name, Version, W),
) -> Result<Ready<W>, Memory>
    ensures { IfOk result (λ r. IsReadyFor (arc_value program.now) strict
        (record {
          user = session.0;
          version = session.1;
          traffic = W.recorded session.2;
          faults = W.faults session.2;
        }) r.setup (W.recorded r.wire) (W.faults r.wire)) }
{
    let (user, version, wire) = session;
    match program.clone() {
        Ok(program) => Ok(Ready {
            setup: Setup {
                user,
                version,
                strict,
                program,
            },
            wire,
        }),
        Err(fault) => {
            drop(user);
            drop(wire);
            Err(fault)
        }
    }
}

/// The setups of all sessions, in order.
pub fn ready_all<W: Wire>(
    alloc: Global,
    program: &Arc<Resolved>,
    strict: bool,
    sessions: Sessions<W>,
) -> Result<Vec<Ready<W>>, Memory>
    ensures { IfOk result (λ all. AllPairs (λ s r. IsReadyFor (arc_value program.now) strict
        (record { user = s.0; version = s.1; traffic = W.recorded s.2; faults = W.faults s.2 })
        r.setup (W.recorded r.wire) (W.faults r.wire)) sessions all.items) }
{
    let mut all = match with_places(alloc, sessions.as_slice().len()) {
        Ok(all) => all,
        Err(fault) => {
            drop(sessions);
            return Err(fault);
        }
    };
    for session in sessions.into_vec() {
        match set_up(program, strict, session) {
            Ok(ready) => all.push_reserved(ready),
            Err(fault) => {
                drop(all);
                return Err(fault);
            }
        }
    }
    Ok(all)
}

/// A job for a session, at a ground with a pass that is split off.
fn job<'g, R: Wait + Sync, W: Wire + Send>(
    rt: &'g R,
    alloc: Global,
    gate: &'g Gate<Shelf>,
    pass: &mut Pass<Shelf>,
    ready: Ready<W>,
) -> SessionJob<'g, R, W>
    requires here { pass.old.gate ≡ gate.now }
    requires left { 2 ^ 33 ≤ pass.old.knows.left }
    ensures gate { pass.new.gate ≡ pass.old.gate }
    ensures knows { pass.new.knows ≡ split_from pass.old.knows }
    ensures here { result.ground.gate ≡ gate.now }
    ensures other { result.ground.knows ≡ split_off pass.old.knows }
    ensures setup { result.setup ≡ ready.setup }
    ensures wire { result.wire ≡ ready.wire }
{
    let other = pass.split(gate);
    let Ready { setup, wire } = ready;
    SessionJob {
        alloc,
        ground: SharedGround::new(rt, gate, other),
        setup,
        wire,
    }
}

/// The jobs of all sessions, in order, in places that are there.
pub fn jobs_of<'g, R: Wait + Sync, W: Wire + Send>(
    rt: &'g R,
    alloc: Global,
    gate: &'g Gate<Shelf>,
    pass: &mut Pass<Shelf>,
    ready: Vec<Ready<W>>,
    jobs: &mut Vec<SessionJob<'g, R, W>>,
)
    requires here { pass.old.gate ≡ gate.now }
    requires left { 2 ^ 33 + 2 ^ 32 * length ready.items ≤ pass.old.knows.left }
    requires room { length ready.items ≤ vec_capacity jobs.old }
    requires none { jobs.old.items ≡ [] }
    ensures gate { pass.new.gate ≡ pass.old.gate }
    ensures less { IsLessBy pass.old.knows (length ready.items) pass.new.knows }
    ensures jobs { AllPairs (λ r j. (j.ground.gate ≡ gate.now)
        × (j.ground.knows ≡ split_off pass.old.knows) × (j.setup ≡ r.setup) × (j.wire ≡ r.wire))
        ready.items jobs.new.items }
{
    for one in ready {
        jobs.push_reserved(job(rt, alloc, gate, pass, one));
    }
}
