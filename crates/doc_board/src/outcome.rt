//! The outcome of a revision that is proposed.

ghost use Rattle.std.specs.Prelude.{◌≡◌, IfOk};
ghost use Rattle.doc_board.specs.Errors as errors;

use repl_messages::{ErrorKind, Field};
use sg_history::RevId;
use sg_outside::Memory;
use std::alloc::Global;
use sync_meaning::Rule;

/// The most bytes that a document's body may have.
pub const MOST_BODY_BYTES: u64 = 20_971_520;

/// The outcome of a proposed revision. `at` is the length of the log of the board by which it was judged.
#[derive(Drop)]
pub enum Outcome {
    /// This part of it is outside its grammar, or the body is no document.
    Bad400 { field: Field },
    /// The body has more bytes than one may have.
    TooLarge413 { bytes: u64 },
    /// The user who proposes it does not exist.
    UserGone401 { at: u64 },
    /// The document has it.
    Known { at: u64 },
    /// The generations of the revision and its ancestors don't fall strictly, or there are more than 1,000 ancestors.
    BadHistory400 { at: u64 },
    /// It would make a conflict, where none is allowed, with the document's winner.
    Conflict409 { at: u64, leaf: RevId },
    /// The program denies it, by this rule.
    Denied403 { at: u64, rule: Rule },
    /// It is stored at this sequence.
    Stored { sequence: u64, at: u64 },
    /// The board has no room for it: so many places among the entries that wait are taken, two for each room among them.
    Full503 { at: u64, places: u64 },
    /// The board has no room for it: the log with those places has so many entries; and all bodies with those that rooms were
    /// made for, and its own, have so many bytes, or 2^64 - 1 where there are more.
    LogFull509 { at: u64, entries: u64, bytes: u64 },
    /// Out of memory.
    Memory507,
}

/// The error by which a proposed revision is refused, by its outcome; none where its document has it now.
pub fn outcome_error(alloc: Global, outcome: &Outcome) -> Result<Option<ErrorKind>, Memory>
    ensures { IfOk result (λ error. error ≡ errors.outcome_error outcome.now) }
{
    let error = match outcome {
        Outcome::Stored { .. } | Outcome::Known { .. } => return Ok(None),
        Outcome::Bad400 { field } => ErrorKind::Bad400 { field: *field },
        Outcome::TooLarge413 { .. } => ErrorKind::TooLarge413,
        Outcome::UserGone401 { .. } => ErrorKind::UserGone401,
        Outcome::BadHistory400 { .. } => ErrorKind::BadHistory400,
        Outcome::Conflict409 { leaf, .. } => ErrorKind::Conflict409 {
            leaf: leaf.copy(alloc)?,
        },
        Outcome::Denied403 { rule, .. } => ErrorKind::Denied403 {
            rule: rule.text(alloc)?,
        },
        Outcome::Full503 { .. } => ErrorKind::PendingFull503,
        Outcome::LogFull509 { .. } => ErrorKind::LogFull509,
        Outcome::Memory507 => ErrorKind::Memory507,
    };
    Ok(Some(error))
}
