//! The loop that accepts callers, and joins the jobs that have ended.

ghost use Rattle.std.specs.Prelude.{◌≡◌, ◌≤◌, ◌<◌, ◌+◌, Some, None, IfOk, IfErr, MatchResult, vec_len, vec_capacity};
ghost use Rattle.gateway_server.specs.Serving.{Each, Serves, ServedIfRecorded, end_of, refusal_after};

use crate::job::{Job, Running, start};
use crate::serve::Serve;
use crate::stop::{DoorEnd, Stop};
use sg_lines::{Door, Met};
use std::alloc::Global;
use std::sync::atomic::AtomicBool;
use std::sync::{Arc, Wait};
use std::thread;
use std::thread::{Scope, Threads};

/// Hands on what a job gave, and gives its trace back to the door.
#[tactic(auto, using(crate::proofs::ServingSteps::one_back))]
fn give_back<D: Door, S: Serve<D::Line>>(door: &mut D, serve: &mut S, done: <S::Job as Job>::Done)
    requires job { (job : S.Job) × (S.made serve.old job) × (S.Job.relates job done) }
    requires some { 0 < S.out serve.old }
    ensures out { S.out serve.new + 1 ≡ S.out serve.old }
    ensures refused { S.refused serve.new ≡ S.refused serve.old }
    ensures stays { (job : S.Job) → S.made serve.old job → S.made serve.new job }
    ensures served { Serves (S.holds serve.old) (S.out serve.old) (D.recorded door.old)
        None (S.holds serve.new) (S.out serve.new) (D.recorded door.new) }
    ensures follows { S.follows serve.old serve.new }
    ensures faults { D.faults door.old ≤ D.faults door.new }
{
    let trace = serve.done(done);
    door.back(trace);
}

/// Joins a job.
fn finish<D: Door, S: Serve<D::Line>>(
    rt: &impl Threads,
    door: &mut D,
    serve: &mut S,
    running: Running<S::Job>,
)
    requires job { S.made serve.old running.child.promise.job.value }
    requires some { 0 < S.out serve.old }
    ensures out { S.out serve.new + 1 ≡ S.out serve.old }
    ensures refused { S.refused serve.new ≡ S.refused serve.old }
    ensures stays { (job : S.Job) → S.made serve.old job → S.made serve.new job }
    ensures served { Serves (S.holds serve.old) (S.out serve.old) (D.recorded door.old)
        None (S.holds serve.new) (S.out serve.new) (D.recorded door.new) }
    ensures follows { S.follows serve.old serve.new }
    ensures faults { D.faults door.old ≤ D.faults door.new }
{
    let done = running.join(rt);
    give_back::<D, S>(door, serve, done);
}

/// Joins those that have ended, and keeps the others; where there is no memory for that, it keeps all.
fn reap<D: Door, S: Serve<D::Line>>(
    rt: &impl Threads,
    alloc: Global,
    door: &mut D,
    serve: &mut S,
    running: Vec<Running<S::Job>>,
) -> Vec<Running<S::Job>>
    requires jobs { Each (λ r. S.made serve.old r.child.promise.job.value) running.items }
    requires within { vec_len running ≤ S.out serve.old }
    ensures jobs { Each (λ r. S.made serve.new r.child.promise.job.value) result.items }
    ensures count { S.out serve.new + vec_len running ≡ S.out serve.old + vec_len result }
    ensures refused { S.refused serve.new ≡ S.refused serve.old }
    ensures served { Serves (S.holds serve.old) (S.out serve.old) (D.recorded door.old)
        None (S.holds serve.new) (S.out serve.new) (D.recorded door.new) }
    ensures follows { S.follows serve.old serve.new }
    ensures faults { D.faults door.old ≤ D.faults door.new }
{
    let mut kept = Vec::new(alloc);
    if kept.reserve(running.len()).is_err() {
        return running;
    }
    for one in running {
        if one.has_ended() {
            finish::<D, S>(rt, door, serve, one);
        } else {
            kept.push_reserved(one);
        }
    }
    kept
}

/// Joins all.
fn finish_all<D: Door, S: Serve<D::Line>>(
    rt: &impl Threads,
    door: &mut D,
    serve: &mut S,
    running: Vec<Running<S::Job>>,
)
    requires jobs { Each (λ r. S.made serve.old r.child.promise.job.value) running.items }
    requires within { vec_len running ≤ S.out serve.old }
    ensures out { S.out serve.new + vec_len running ≡ S.out serve.old }
    ensures refused { S.refused serve.new ≡ S.refused serve.old }
    ensures served { Serves (S.holds serve.old) (S.out serve.old) (D.recorded door.old)
        None (S.holds serve.new) (S.out serve.new) (D.recorded door.new) }
    ensures follows { S.follows serve.old serve.new }
    ensures faults { D.faults door.old ≤ D.faults door.new }
{
    for one in running {
        finish::<D, S>(rt, door, serve, one);
    }
}

/// Whether a job has ended, as seen here and by the job; none where memory ran out.
fn new_flags(alloc: Global) -> Option<(Arc<AtomicBool>, Arc<AtomicBool>)> {
    let ended = Arc::new(alloc, AtomicBool::new(false)).ok()?;
    let theirs = Arc::try_clone(&ended).ok()?;
    Some((ended, theirs))
}

/// Starts a job; where no thread can be made it is run here, and what it gave is handed on.
fn begin<'s, E, D: Door, S: Serve<D::Line>>(
    scope: &Scope<'s, E>,
    flags: (Arc<AtomicBool>, Arc<AtomicBool>),
    door: &mut D,
    serve: &mut S,
    job: S::Job,
    running: &mut Vec<Running<S::Job>>,
)
where
    S::Job: 's,
    <S::Job as Job>::Done: 's,
    requires job { S.made serve.old job }
    requires some { vec_len running.old < S.out serve.old }
    requires room { vec_len running.old < vec_capacity running.old }
    requires jobs { Each (λ r. S.made serve.old r.child.promise.job.value) running.old.items }
    ensures jobs { Each (λ r. S.made serve.new r.child.promise.job.value) running.new.items }
    ensures count { S.out serve.new + vec_len running.old + 1
        ≡ S.out serve.old + vec_len running.new }
    ensures refused { S.refused serve.new ≡ S.refused serve.old }
    ensures served { Serves (S.holds serve.old) (S.out serve.old) (D.recorded door.old)
        None (S.holds serve.new) (S.out serve.new) (D.recorded door.new) }
    ensures follows { S.follows serve.old serve.new }
    ensures faults { D.faults door.old ≤ D.faults door.new }
{
    let (ended, theirs) = flags;
    match start(scope, ended, theirs, job) {
        Ok(one) => running.push_reserved(one),
        Err(done) => give_back::<D, S>(door, serve, done),
    }
}

/// Takes the next caller, and has a job made of its line.
#[tactic(auto, using(crate::proofs::ServingSteps::one_more, crate::proofs::ServingSteps::one_refused))]
fn next_job<D: Door, S: Serve<D::Line>>(door: &mut D, serve: &mut S) -> Result<S::Job, Stop>
    ensures job { IfOk result (λ job. S.made serve.new job) }
    ensures out { MatchResult result (λ _. S.out serve.new ≡ S.out serve.old + 1)
        (λ _. S.out serve.new ≡ S.out serve.old) }
    ensures stays { (job : S.Job) → S.made serve.old job → S.made serve.new job }
    ensures refused { MatchResult result (λ _. S.refused serve.new ≡ S.refused serve.old)
        (λ stop. S.refused serve.new ≡ refusal_after (S.refused serve.old) (Some stop)) }
    ensures served { MatchResult result (λ _. Serves (S.holds serve.old)
        (S.out serve.old) (D.recorded door.old) None (S.holds serve.new) (S.out serve.new)
        (D.recorded door.new)) (λ stop. Serves (S.holds serve.old) (S.out serve.old)
        (D.recorded door.old) (Some stop) (S.holds serve.new) (S.out serve.new)
        (D.recorded door.new)) }
    ensures follows { S.follows serve.old serve.new }
    ensures faults { D.faults door.old ≤ D.faults door.new }
    ensures failed { IfErr result (λ stop. stop ≡ Stop.Failed
        → D.faults door.old < D.faults door.new) }
{
    match door.accept() {
        Met::Caller(line) => match serve.job(line) {
            Ok(job) => Ok(job),
            Err(why) => Err(Stop::Refused(why)),
        },
        Met::End => Err(Stop::End),
        Met::Failed => Err(Stop::Failed),
        Met::Memory => Err(Stop::Memory),
    }
}

/// Takes the next caller, and starts its job. None says that serving goes on.
#[tactic(auto, using(crate::proofs::ServingSteps::before, crate::proofs::ServingSteps::short_at_once))]
fn serve_next<'s, E, D: Door, S: Serve<D::Line>>(
    scope: &Scope<'s, E>,
    alloc: Global,
    door: &mut D,
    serve: &mut S,
    running: &mut Vec<Running<S::Job>>,
) -> Option<Stop>
where
    S::Job: 's,
    <S::Job as Job>::Done: 's,
    requires jobs { Each (λ r. S.made serve.old r.child.promise.job.value) running.old.items }
    requires within { vec_len running.old ≤ S.out serve.old }
    ensures jobs { Each (λ r. S.made serve.new r.child.promise.job.value) running.new.items }
    ensures count { S.out serve.new + vec_len running.old ≡ S.out serve.old + vec_len running.new }
    ensures refused { S.refused serve.new ≡ refusal_after (S.refused serve.old) result }
    ensures served { Serves (S.holds serve.old) (S.out serve.old) (D.recorded door.old)
        result (S.holds serve.new) (S.out serve.new) (D.recorded door.new) }
    ensures follows { S.follows serve.old serve.new }
    ensures faults { D.faults door.old ≤ D.faults door.new }
    ensures failed { result ≡ Some Stop.Failed → D.faults door.old < D.faults door.new }
{
    if running.reserve(1).is_err() {
        return Some(Stop::Memory);
    }
    let Some(flags) = new_flags(alloc) else {
        return Some(Stop::Memory);
    };
    match next_job::<D, S>(door, serve) {
        Ok(job) => {
            begin::<_, D, S>(scope, flags, door, serve, job, running);
            None
        }
        Err(stop) => {
            drop(flags);
            Some(stop)
        }
    }
}

/// Serves callers until something stops it. Gives those that still run.
#[tactic(auto, using(crate::proofs::ServingSteps::same, crate::proofs::ServingSteps::out_of_memory))]
fn serve_all<'s, E, D: Door, S: Serve<D::Line>>(
    scope: &Scope<'s, E>,
    rt: &impl Threads,
    alloc: Global,
    door: &mut D,
    serve: &mut S,
) -> (Stop, Vec<Running<S::Job>>)
where
    S::Job: 's,
    <S::Job as Job>::Done: 's,
    ensures jobs { Each (λ r. S.made serve.new r.child.promise.job.value) result.1.items }
    ensures count { S.out serve.new ≡ S.out serve.old + vec_len result.1 }
    ensures refused { S.refused serve.new ≡ refusal_after (S.refused serve.old) (Some result.0) }
    ensures served { Serves (S.holds serve.old) (S.out serve.old) (D.recorded door.old)
        (Some result.0) (S.holds serve.new) (S.out serve.new) (D.recorded door.new) }
    ensures follows { S.follows serve.old serve.new }
    ensures faults { D.faults door.old ≤ D.faults door.new }
    ensures failed { result.0 ≡ Stop.Failed → D.faults door.old < D.faults door.new }
{
    let mut running = Vec::new(alloc);
    for _ in 0..u64::MAX {
        running = reap::<D, S>(rt, alloc, door, serve, running);
        match serve_next::<_, D, S>(scope, alloc, door, serve, &mut running) {
            Some(stop) => return (stop, running),
            None => {}
        }
    }
    (Stop::Memory, running)
}

/// Serves callers until something stops it, and then joins those that still run. The list comes back empty.
fn serve_within<'s, E, D: Door, S: Serve<D::Line>>(
    scope: &Scope<'s, E>,
    rt: &impl Threads,
    alloc: Global,
    door: &mut D,
    serve: &mut S,
    running: Vec<Running<S::Job>>,
) -> (Stop, Vec<Running<S::Job>>)
where
    S::Job: 's,
    <S::Job as Job>::Done: 's,
    ensures out { S.out serve.new ≡ S.out serve.old }
    ensures refused { S.refused serve.new ≡ refusal_after (S.refused serve.old) (Some result.0) }
    ensures served { ServedIfRecorded (S.holds serve.old) (D.recorded door.old) result.0
        (S.holds serve.new) (D.recorded door.new) }
    ensures follows { S.follows serve.old serve.new }
    ensures faults { D.faults door.old ≤ D.faults door.new }
    ensures failed { result.0 ≡ Stop.Failed → D.faults door.old < D.faults door.new }
{
    let (stop, left) = serve_all::<_, D, S>(scope, rt, alloc, door, serve);
    finish_all::<D, S>(rt, door, serve, left);
    (stop, running)
}

/// Does nothing: what a scope handed back is known once it is handed on.
fn hand_on<D: Drop, S>(_door: &mut D, _serve: &mut S)
    ensures door { _door.new ≡ _door.old }
    ensures serve { _serve.new ≡ _serve.old }
{}

/// Serves each caller of a door by a job in a thread of its own, and joins all of them. Where no thread can be made the job is run here,
/// and no other caller is taken meanwhile. It may wait, for callers and for the jobs.
///
/// Jobs that have ended are joined before the next caller is taken.
pub fn serve_door<R: Threads + Wait + Sync, D: Door, S: Serve<D::Line>>(
    rt: &R,
    alloc: Global,
    door: &mut D,
    serve: &mut S,
) -> DoorEnd
    ensures failed { result ≡ DoorEnd.Failed → D.faults door.old < D.faults door.new }
    ensures faults { D.faults door.old ≤ D.faults door.new }
    ensures follows { S.follows serve.old serve.new }
    ensures out { S.out serve.new ≡ S.out serve.old }
    ensures served { (stop : Stop) × (result ≡ end_of stop)
        × (S.refused serve.new ≡ refusal_after (S.refused serve.old) (Some stop))
        × ServedIfRecorded (S.holds serve.old) (D.recorded door.old) stop
        (S.holds serve.new) (D.recorded door.new) }
{
    let none: Vec<Running<S::Job>> = Vec::new(alloc);
    let (door, serve, none, stop) = thread::scope(thread::scope_env(), rt, move |scope| {
        let (stop, none) = serve_within::<_, D, S>(scope, rt, alloc, door, serve, none);
        (door, serve, none, stop)
    });
    hand_on(door, serve);
    drop(none);
    stop.end()
}
