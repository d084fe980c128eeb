//! How serving ends.

ghost use Rattle.std.specs.Prelude.{◌≡◌};
ghost use Rattle.gateway_server.specs.Serving.{end_of};

use crate::serve::NoJob;

/// What serving a door ended with.
#[derive(Drop)]
pub enum DoorEnd {
    /// No more callers come, or the server makes no more jobs.
    Ended,
    /// Accepting failed.
    Failed,
    /// Memory ran out.
    Memory,
}

/// What stopped it.
#[derive(Drop)]
pub enum Stop {
    /// Accepting answered its end.
    End,
    /// Accepting answered a fault.
    Failed,
    /// The server refused the last job.
    Refused(NoJob),
    /// Memory ran out before a caller came.
    Memory,
}

impl Stop {
    pub(crate) fn end(self) -> DoorEnd
        ensures { result ≡ end_of self }
    {
        match self {
            Stop::End => DoorEnd::Ended,
            Stop::Failed => DoorEnd::Failed,
            Stop::Refused(NoJob::Spent) => DoorEnd::Ended,
            Stop::Refused(NoJob::Memory) => DoorEnd::Memory,
            Stop::Memory => DoorEnd::Memory,
        }
    }
}
