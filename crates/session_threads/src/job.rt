//! Jobs of one type, each in a thread of its own.

ghost use Rattle.std.specs.Prelude.{◌≡◌, ◌≤◌, [], List, length, MatchResult, vec_capacity};
ghost use Rattle.session_threads.specs.Pairs.{AllPairs};

use std::snapshot::Snapshot;
use std::thread::{Promise, PromisedHandle, Scope, Threads};

/// What is run in a thread, and how that goes with what it gives.
pub trait Job: Send + Drop {
    type Done: Send + Drop;

    ghost relates: { Self → Self.Done → Type 0 };

    fn run(self) -> Self::Done
    where
        Self: Sized,
        ensures { relates self result };
}

/// That what a thread gives goes with this job.
#[derive(Drop)]
pub struct DoneOf<J: Job> {
    job: Snapshot<J>,
}

impl<J: Job> Promise<J::Done> for DoneOf<J> {
    ghost kept_by = { λ p r. J.relates p.job.value r };
}

/// A job that was started in a thread, or what it gave where no thread could be made.
pub type Started<J> = Result<PromisedHandle<<J as Job>::Done, DoneOf<J>>, <J as Job>::Done>;

/// Runs the job in a thread of the scope, or here where no thread can be made.
fn start<'s, E, J: Job + 's>(scope: &Scope<'s, E>, job: J) -> Started<J>
where
    J::Done: 's,
    ensures { MatchResult result (λ h. h.promise.job.value ≡ job) (λ d. J.relates job d) }
{
    let promise = DoneOf::<J> {
        job: Snapshot::of(&job),
    };
    match scope.spawn_with(promise, move || job.run()) {
        Ok(child) => Ok(child),
        Err(refused) => Err((refused.value)()),
    }
}

/// Starts all jobs, in order.
pub fn start_all<'s, E, J: Job + 's>(
    scope: &Scope<'s, E>,
    jobs: Vec<J>,
    started: &mut Vec<Started<J>>,
)
where
    J::Done: 's,
    requires room { length jobs.items ≤ vec_capacity started.old }
    requires none { started.old.items ≡ [] }
    ensures pairs { AllPairs (λ j r. MatchResult r (λ h. h.promise.job.value ≡ j)
        (λ d. J.relates j d)) jobs.items started.new.items }
    ensures count { length started.new.items ≡ length jobs.items }
{
    for job in jobs {
        started.push_reserved(start(scope, job));
    }
}

/// What all jobs gave, in order, once their threads have ended.
pub fn finish_all<J: Job>(rt: &impl Threads, started: &mut Vec<Started<J>>, done: &mut Vec<J::Done>)
    requires room { length started.old.items ≤ vec_capacity done.old }
    requires none { done.old.items ≡ [] }
    ensures { (jobs : List J) → AllPairs (λ j r. MatchResult r (λ h. h.promise.job.value ≡ j)
        (λ d. J.relates j d)) jobs started.old.items → AllPairs J.relates jobs done.new.items }
{
    while !started.is_empty() {
        match started.remove(0) {
            Ok(child) => done.push_reserved(child.join(rt)),
            Err(given) => done.push_reserved(given),
        }
    }
}
