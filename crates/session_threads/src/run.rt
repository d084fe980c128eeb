//! The whole: the opening, the threads, and the gate that is closed behind them.

ghost use Rattle.std.specs.Prelude.{◌≡◌, ◌≤◌, ◌+◌, ◌*◌, ◌^◌, [], length, map, vec_capacity, IfOk, MatchResult};
ghost use Rattle.std.specs.Arc.{arc_value};
ghost use Rattle.sg_history.specs.Board.{BoardState};
ghost use Rattle.seq_gate.specs.Passes.{first_pass, joined_passes};
ghost use Rattle.principals.specs.Script.{AreLines};
ghost use Rattle.write_path.specs.Shared.{Rests};
ghost use Rattle.write_path.specs.Shelf.{shelf_state};
ghost use Rattle.session_threads.specs.Pairs.{AllOf, AllPairs};
ghost use Rattle.session_threads.specs.Played.{IsPlayed};
ghost use Rattle.session_threads.specs.inner.Runs.{AreClosed, AreThreaded, IsScriptDone, joined_all};

use crate::job::{Job, Started, finish_all, start_all};
use crate::opening::opened;
use crate::played::{LineOutcome, LineOutcomes, Played, PlayedSession, PlayedSessions, Sessions};
use crate::ready::{Ready, jobs_of, ready_all, with_places};
use crate::script::run_script;
use crate::session::{SessionDone, SessionJob};
use gateway_config::Config;
use principals::AdminLines;
use seq_gate::{Gate, Pass, close, open};
use sg_outside::{Memory, Wire};
use std::alloc::{AllocError, Global};
use std::sync::{Arc, Wait};
use std::thread;
use std::thread::Threads;
use write_path::{Resolved, Shelf};

/// Takes in the pass of a session.
fn take_in<R: Wait + Sync, W: Wire + Send>(
    gate: &Gate<Shelf>,
    pass: &mut Pass<Shelf>,
    done: SessionDone<'_, R, W>,
) -> PlayedSession<W>
    requires here { pass.old.gate ≡ gate.now }
    requires other { done.ground.gate ≡ gate.now }
    ensures gate { pass.new.gate ≡ pass.old.gate }
    ensures knows { pass.new.knows ≡ joined_passes pass.old.knows done.entry.ground.knows }
    ensures rests { Rests done.entry.ground.knows }
    ensures wire { result.wire ≡ done.entry.wire }
    ensures ended { result.ended ≡ done.entry.ended }
{
    let SessionDone {
        ground,
        wire,
        ended,
    } = done;
    pass.join(gate, ground.into_inner());
    PlayedSession { wire, ended }
}

/// Takes in the passes of all sessions, in order.
fn take_in_all<R: Wait + Sync, W: Wire + Send>(
    gate: &Gate<Shelf>,
    pass: &mut Pass<Shelf>,
    done: Vec<SessionDone<'_, R, W>>,
    ended: &mut Vec<PlayedSession<W>>,
)
    requires here { pass.old.gate ≡ gate.now }
    requires others { AllOf (λ d. d.ground.gate ≡ gate.now) done.items }
    requires room { length done.items ≤ vec_capacity ended.old }
    requires none { ended.old.items ≡ [] }
    ensures gate { pass.new.gate ≡ pass.old.gate }
    ensures knows { pass.new.knows
        ≡ joined_all pass.old.knows (map (λ d. d.ground.knows) done.entry.items) }
    ensures ended { AllPairs (λ d e. (e.wire ≡ d.wire) × (e.ended ≡ d.ended)
        × Rests d.ground.knows) done.entry.items ended.new.items }
{
    for one in done {
        ended.push_reserved(take_in(gate, pass, one));
    }
}

/// Places for what so many jobs give, and for the handles on their threads.
fn places_for<J: Job>(
    alloc: Global,
    count: usize,
) -> Result<(Vec<J::Done>, Vec<Started<J>>), Memory>
    ensures done { IfOk result (λ p. (count ≤ vec_capacity p.0) × (p.0.items ≡ [])) }
    ensures started { IfOk result (λ p. (count ≤ vec_capacity p.1) × (p.1.items ≡ [])) }
{
    let mut done = Vec::new(alloc);
    done.reserve(count)?;
    let mut started = Vec::new(alloc);
    started.reserve(count)?;
    Ok((done, started))
}

/// Runs jobs, each in a thread of its own, and a script in this one, all at the same time: gives back the script's pass and outcomes, and
/// what each job gave, in order. All memory that this takes is taken before the first is started.
fn in_threads<R: Threads + Wait + Sync, J: Job>(
    rt: &R,
    alloc: Global,
    gate: &Gate<Shelf>,
    pass: Pass<Shelf>,
    program: &Resolved,
    strict: bool,
    lines: AdminLines,
    outcomes: Vec<LineOutcome>,
    jobs: Vec<J>,
) -> Result<(Pass<Shelf>, Vec<LineOutcome>, Vec<J::Done>), Memory>
    requires here { pass.gate ≡ gate.now }
    requires rested { Rests pass.knows }
    requires draws { 2 * length lines ≤ pass.knows.left }
    requires lawful { AreLines lines }
    requires room { length lines ≤ vec_capacity outcomes }
    requires none { outcomes.items ≡ [] }
    ensures script { IfOk result (λ r. IsScriptDone gate.now pass.knows program.now strict lines
        r.0 r.1.items) }
    ensures jobs { IfOk result (λ r. AllPairs J.relates jobs.items r.2.items) }
{
    let places = match places_for::<J>(alloc, jobs.len()) {
        Ok(places) => places,
        Err(fault) => {
            drop(pass);
            drop(lines);
            drop(outcomes);
            drop(jobs);
            return Err(fault);
        }
    };
    let (mut done, started) = places;
    let (pass, outcomes, started) = thread::scope(
        thread::scope_env(),
        rt,
        move |scope| -> (Pass<Shelf>, Vec<LineOutcome>, Vec<Started<J>>)
            requires { (length jobs.items ≤ vec_capacity started) × (started.items ≡ [])
                × (pass.gate ≡ gate.now) × Rests pass.knows
                × (2 * length lines ≤ pass.knows.left) × AreLines lines
                × (length lines ≤ vec_capacity outcomes) × (outcomes.items ≡ []) }
            ensures { IsScriptDone gate.entry.now pass.knows program.entry.now strict lines
                result.0 result.1.items
                × AllPairs (λ j r. MatchResult r (λ h. h.promise.job.value ≡ j)
                (λ d. J.relates j d)) jobs.items result.2.items
                × (length result.2.items ≡ length jobs.items) }
        {
            let mut started = started;
            let mut outcomes = outcomes;
            start_all::<_, J>(scope, jobs, &mut started);
            let pass = run_script(rt, alloc, gate, pass, program, strict, lines, &mut outcomes);
            (pass, outcomes, started)
        },
    );
    let mut started = started;
    finish_all::<J>(rt, &mut started, &mut done);
    Ok((pass, outcomes, done))
}

/// Runs a script and serves sessions with passes that are split off, and takes these in.
fn threads<R: Threads + Wait + Sync, W: Wire + Send>(
    rt: &R,
    alloc: Global,
    gate: &Gate<Shelf>,
    pass: Pass<Shelf>,
    program: &Resolved,
    strict: bool,
    lines: AdminLines,
    outcomes: Vec<LineOutcome>,
    ready: Vec<Ready<W>>,
    ended: &mut Vec<PlayedSession<W>>,
) -> Result<(Pass<Shelf>, Vec<LineOutcome>), Memory>
    requires here { pass.gate ≡ gate.now }
    requires rests { Rests pass.knows }
    requires left { 2 ^ 34 + 2 ^ 32 * length ready.items ≤ pass.knows.left }
    requires lines { AreLines lines }
    requires few { length lines ≤ 2 ^ 30 }
    requires outcomes { (length lines ≤ vec_capacity outcomes) × (outcomes.items ≡ []) }
    requires room { length ready.items ≤ vec_capacity ended.old }
    requires none { ended.old.items ≡ [] }
    ensures { IfOk result (λ r. AreThreaded gate.now pass.knows program.now strict lines
        (map (λ s. record { setup = s.setup; traffic = W.recorded s.wire; faults = W.faults s.wire })
        ready.items) r.0 r.1.items
        (map (λ e. record {
          ended = e.ended;
          traffic = W.recorded e.wire;
          faults = W.faults e.wire;
        }) ended.new.items)) }
{
    let mut pass = pass;
    let mut jobs = match with_places(alloc, ready.len()) {
        Ok(jobs) => jobs,
        Err(fault) => {
            drop(pass);
            drop(lines);
            drop(outcomes);
            drop(ready);
            return Err(fault);
        }
    };
    jobs_of(rt, alloc, gate, &mut pass, ready, &mut jobs);
    let other = pass.split(gate);
    let given = match in_threads(
        rt, alloc, gate, other, program, strict, lines, outcomes, jobs,
    ) {
        Ok(given) => given,
        Err(fault) => {
            drop(pass);
            return Err(fault);
        }
    };
    let (other, outcomes, done) = given;
    pass.join(gate, other);
    take_in_all(gate, &mut pass, done, ended);
    Ok((pass, outcomes))
}

/// Runs them behind a gate that is opened for them, and closes it.
fn behind_a_gate<R: Threads + Wait + Sync, W: Wire + Send>(
    rt: &R,
    alloc: Global,
    gate: Gate<Shelf>,
    pass: Pass<Shelf>,
    program: &Resolved,
    strict: bool,
    lines: AdminLines,
    outcomes: Vec<LineOutcome>,
    ready: Vec<Ready<W>>,
    ended: Vec<PlayedSession<W>>,
) -> Result<Played<W>, Memory>
    requires here { pass.gate ≡ gate }
    requires opened { (b : BoardState) × (pass.knows ≡ first_pass b) }
    requires lines { AreLines lines }
    requires few { length lines ≤ 2 ^ 30 }
    requires outcomes { (length lines ≤ vec_capacity outcomes) × (outcomes.items ≡ []) }
    requires sessions { length ready.items ≤ 1000 }
    requires room { length ready.items ≤ vec_capacity ended }
    requires none { ended.items ≡ [] }
    ensures { IfOk result (λ p. AreClosed pass.knows program.now strict lines
        (map (λ s. record { setup = s.setup; traffic = W.recorded s.wire; faults = W.faults s.wire })
        ready.items) (shelf_state p.shelf) p.script
        (map (λ e. record {
          ended = e.ended;
          traffic = W.recorded e.wire;
          faults = W.faults e.wire;
        }) p.sessions)) }
{
    let mut ended = ended;
    let given = match threads(
        rt, alloc, &gate, pass, program, strict, lines, outcomes, ready, &mut ended,
    ) {
        Ok(given) => given,
        Err(fault) => {
            drop(gate);
            drop(ended);
            return Err(fault);
        }
    };
    let (pass, outcomes) = given;
    Ok(Played {
        shelf: close(gate, pass),
        script: LineOutcomes::from_vec(outcomes),
        sessions: PlayedSessions::from_vec(ended),
    })
}

/// Places for the outcomes of so many lines, and for so many sessions that have ended.
fn places_of<W: Wire>(
    alloc: Global,
    lines: usize,
    sessions: usize,
) -> Result<(Vec<LineOutcome>, Vec<PlayedSession<W>>), Memory>
    ensures outcomes { IfOk result (λ p. (lines ≤ vec_capacity p.0) × (p.0.items ≡ [])) }
    ensures ended { IfOk result (λ p. (sessions ≤ vec_capacity p.1) × (p.1.items ≡ [])) }
{
    let outcomes = with_places(alloc, lines)?;
    let ended = with_places(alloc, sessions)?;
    Ok((outcomes, ended))
}

/// Runs a script and sessions over the history of a shelf.
fn play<R: Threads + Wait + Sync, W: Wire + Send>(
    rt: &R,
    alloc: Global,
    shelf: Shelf,
    program: &Resolved,
    strict: bool,
    lines: AdminLines,
    ready: Vec<Ready<W>>,
) -> Result<Played<W>, Memory>
    requires pending { shelf.board.pending ≡ [] }
    requires rooms { shelf.board.rooms ≡ [] }
    requires short { length shelf.board.log ≤ 3999999 }
    requires lines { AreLines lines }
    requires few { length lines ≤ 2 ^ 30 }
    requires sessions { length ready.items ≤ 1000 }
    ensures { IfOk result (λ p. AreClosed (first_pass (shelf_state shelf)) program.now strict lines
        (map (λ s. record { setup = s.setup; traffic = W.recorded s.wire; faults = W.faults s.wire })
        ready.items) (shelf_state p.shelf) p.script
        (map (λ e. record {
          ended = e.ended;
          traffic = W.recorded e.wire;
          faults = W.faults e.wire;
        }) p.sessions)) }
{
    let places = match places_of(alloc, lines.as_slice().len(), ready.len()) {
        Ok(places) => places,
        Err(fault) => {
            drop(shelf);
            drop(lines);
            drop(ready);
            return Err(fault);
        }
    };
    let (outcomes, ended) = places;
    let opened = match open(alloc, shelf) {
        Ok(opened) => opened,
        Err(fault) => {
            drop(lines);
            drop(ready);
            drop(outcomes);
            drop(ended);
            return Err(fault);
        }
    };
    let (gate, pass) = opened;
    behind_a_gate(
        rt, alloc, gate, pass, program, strict, lines, outcomes, ready, ended,
    )
}

/// Puts the roles and users of a configuration as the first entries of a history, and then runs a script, as the administrator, and serves
/// sessions over it, all at the same time: the script in this thread, and each session in one of its own. Where no thread can be made,
/// the session is served here, before the script is run. It may wait, for turns and for the wires.
///
/// All memory that the threads don't take themselves is taken before the first is started; where there is none, nothing is run.
pub fn run_sessions<R: Threads + Wait + Sync, W: Wire + Send>(
    rt: &R,
    alloc: Global,
    shelf: Shelf,
    config: &Config,
    script: AdminLines,
    sessions: Sessions<W>,
) -> Result<Played<W>, Memory>
    requires empty { shelf.board.log ≡ [] }
    requires pending { shelf.board.pending ≡ [] }
    requires rooms { shelf.board.rooms ≡ [] }
    requires lines { AreLines script }
    requires few_lines { length script ≤ 1073741824 }
    requires few_sessions { length sessions ≤ 1000 }
    ensures played { IfOk result (λ p. IsPlayed config.now script
        (map (λ s. record {
          user = s.0;
          version = s.1;
          traffic = W.recorded s.2;
          faults = W.faults s.2;
        }) sessions) (shelf_state p.shelf) p.script
        (map (λ e. record {
          ended = e.ended;
          traffic = W.recorded e.wire;
          faults = W.faults e.wire;
        }) p.sessions)) }
{
    doc_board::laws::judged_writes();
    session_run::laws::sessions();
    checkpoint_store::laws::side_maps();
    write_path::laws::closing();
    write_path::laws::was_read();
    let strict = !config.conflicts;
    let shelf = match opened(alloc, shelf, config) {
        Ok(shelf) => shelf,
        Err(fault) => {
            drop(script);
            drop(sessions);
            return Err(fault);
        }
    };
    let ready = match ready_all(alloc, &config.program, strict, sessions) {
        Ok(ready) => ready,
        Err(fault) => {
            drop(shelf);
            drop(script);
            return Err(fault);
        }
    };
    play(rt, alloc, shelf, &config.program, strict, script, ready)
}
