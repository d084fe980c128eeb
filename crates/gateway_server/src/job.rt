//! Jobs, each in a thread of its own that says when it has ended.

ghost use Rattle.std.specs.Prelude.{◌≡◌, MatchResult};

use std::snapshot::Snapshot;
use std::sync::Arc;
use std::sync::atomic::{AtomicBool, Ordering};
use std::thread::{Promise, PromisedHandle, Scope, Threads};

/// What is run in a thread, and how that goes with what it gives.
pub trait Job: Send + Drop {
    type Done: Send + Drop;

    ghost relates: { Self → Self.Done → Type 0 };

    fn run(self) -> Self::Done
    where
        Self: Sized,
        ensures { relates self result };
}

/// That what a thread gives goes with this job.
#[derive(Drop)]
pub(crate) struct DoneOf<J: Job> {
    job: Snapshot<J>,
}

impl<J: Job> Promise<J::Done> for DoneOf<J> {
    ghost kept_by = { λ p r. J.relates p.job.value r };
}

/// A job that was started in a thread, and whether it has ended.
#[derive(Drop)]
pub(crate) struct Running<J: Job> {
    child: PromisedHandle<J::Done, DoneOf<J>>,
    ended: Arc<AtomicBool>,
}

/// Runs the job in a thread of the scope, or here where no thread can be made.
pub(crate) fn start<'s, E, J: Job + 's>(
    scope: &Scope<'s, E>,
    ended: Arc<AtomicBool>,
    theirs: Arc<AtomicBool>,
    job: J,
) -> Result<Running<J>, J::Done>
where
    J::Done: 's,
    ensures { MatchResult result (λ r. r.child.promise.job.value ≡ job) (λ d. J.relates job d) }
{
    let promise = DoneOf::<J> {
        job: Snapshot::of(&job),
    };
    let spawned = scope.spawn_with(promise, move || {
        let done = job.run();
        theirs.store(true, Ordering::SeqCst);
        done
    });
    match spawned {
        Ok(child) => Ok(Running { child, ended }),
        Err(refused) => Err((refused.value)()),
    }
}

impl<J: Job> Running<J> {
    pub(crate) fn has_ended(&self) -> bool {
        self.ended.load(Ordering::SeqCst)
    }

    /// What the job gave, once its thread has ended.
    pub(crate) fn join(self, rt: &impl Threads) -> J::Done
        ensures { J.relates self.child.promise.job.value result }
    {
        let Running {
            child,
            ended: _ended,
        } = self;
        child.join(rt)
    }
}
