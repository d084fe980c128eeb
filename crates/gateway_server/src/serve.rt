//! The server, which makes a job of each line.

ghost use Rattle.std.specs.Prelude.{◌≡◌, ◌<◌, ◌+◌, ◌∷◌, ℕ, List, Option, Some, IfOk, MatchResult};
ghost use Rattle.sg_outside.specs.Wire.{no_line};

use crate::job::Job;
use sg_lines::Line;

/// Why there is no job for a line.
#[derive(Drop)]
pub enum NoJob {
    /// The server makes no more jobs.
    Spent,
    /// Memory ran out.
    Memory,
}

/// Makes a job of each line, and takes back what the jobs give.
pub trait Serve<L: Line> {
    ghost use Rattle.gateway_server.specs.declared.serve.NoJob.{NoJob};

    type Job: Job;

    /// Whether it made this job.
    ghost made: { Self → Self.Job → Type 0 };

    /// How many jobs are out.
    ghost out: { Self → ℕ };

    /// Why it refused a job, as it did last, if it did.
    ghost refused: { Self → Option NoJob };

    /// That it is another one's server later on: what this says stays.
    ghost follows: { Self → Self → Type 0 };

    /// What holds of the traces that it answered, the newest first.
    ghost holds: { Self → List L.Trace → Type 0 };

    /// What holds is kept where the line has recorded nothing yet.
    fn job(&mut self, line: L) -> Result<Self::Job, NoJob>
        ensures made { IfOk result (λ job. made self.new job) }
        ensures out { MatchResult result (λ _. out self.new ≡ out self.old + 1)
            (λ _. out self.new ≡ out self.old) }
        ensures refused { MatchResult result (λ _. refused self.new ≡ refused self.old)
            (λ why. refused self.new ≡ Some why) }
        ensures stays { (job : Self.Job) → made self.old job → made self.new job }
        ensures follows { follows self.old self.new }
        ensures holds { L.recorded line ≡ Some no_line → (traces : List L.Trace)
            → holds self.old traces → holds self.new traces };

    /// Takes back what a job gave, and answers the trace of its line.
    fn done(&mut self, done: <Self::Job as Job>::Done) -> L::Trace
        requires job { (job : Self.Job) × (made self.old job) × (Self.Job.relates job done) }
        requires some { 0 < out self.old }
        ensures out { out self.new + 1 ≡ out self.old }
        ensures refused { refused self.new ≡ refused self.old }
        ensures stays { (job : Self.Job) → made self.old job → made self.new job }
        ensures follows { follows self.old self.new }
        ensures holds { (traces : List L.Trace) → holds self.old traces
            → holds self.new (result ∷ traces) };

    ghost itself: { (s : Self) → follows s s };

    ghost later: { (a b c : Self) → follows a b → follows b c → follows a c };
}
