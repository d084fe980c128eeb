//! Replies: the empty one, and those that say why a request is refused.

ghost use Rattle.std.specs.Prelude.{◌≡◌, ◌++◌, IfOk, OnOk, decimal, string_bytes};
ghost use Rattle.repl_messages.specs.Errors.{ok_payload, error_payload, error_domain, error_code, error_subject, error_text};

use crate::request::Field;
use crate::texts::{push, push_text};
use blip_frame::{Payload, Props};
use json_doc::DocText;
use sg_history::{RevId, write_decimal};
use sg_outside::{Bytes, Memory};
use std::alloc::Global;

/// Why a request is answered by an error.
#[derive(Drop)]
pub enum ErrorKind {
    /// A property, or the body, is outside its grammar, or absent where it is needed.
    Bad400 { field: Field },
    /// The since key is in a form that the gateway does not take.
    LowForm400,
    /// The since key is past the length of the history that was looked at.
    SincePast400 { front: u64 },
    /// The generations of a revision and its ancestors do not fall, or there are too many ancestors.
    BadHistory400,
    /// The user does not exist.
    UserGone401,
    /// The sync function denies the revision, by this rule.
    Denied403 { rule: DocText },
    /// No checkpoint is stored.
    NoCheckpoint404,
    /// The message is of no name that the gateway knows.
    NoHandler404,
    /// The revision makes a conflict with this leaf.
    Conflict409 { leaf: RevId },
    /// Another checkpoint is stored.
    Checkpoint409 { current: u64 },
    /// A feed runs already.
    FeedRuns409,
    /// Without conflicts revisions are offered by proposeChanges.
    UsePropose409,
    /// A body is too large.
    TooLarge413,
    /// Too many entries wait for their places.
    PendingFull503,
    /// Too many checkpoints are stored.
    CheckpointsFull503,
    /// Memory ran out.
    Memory507,
    /// The history has as many entries or bytes as it may have.
    LogFull509,
}

impl ErrorKind {
    fn domain(&self) -> &'static str
        ensures { result.now ≡ error_domain self.now }
    {
        match self {
            ErrorKind::NoHandler404 => "BLIP",
            _ => "HTTP",
        }
    }

    fn code(&self) -> u16
        ensures { result ≡ error_code self.now }
    {
        match self {
            ErrorKind::Bad400 { .. }
            | ErrorKind::LowForm400
            | ErrorKind::SincePast400 { .. }
            | ErrorKind::BadHistory400 => 400,
            ErrorKind::UserGone401 => 401,
            ErrorKind::Denied403 { .. } => 403,
            ErrorKind::NoCheckpoint404 | ErrorKind::NoHandler404 => 404,
            ErrorKind::Conflict409 { .. }
            | ErrorKind::Checkpoint409 { .. }
            | ErrorKind::FeedRuns409
            | ErrorKind::UsePropose409 => 409,
            ErrorKind::TooLarge413 => 413,
            ErrorKind::PendingFull503 | ErrorKind::CheckpointsFull503 => 503,
            ErrorKind::Memory507 => 507,
            ErrorKind::LogFull509 => 509,
        }
    }

    /// The code in decimal.
    fn code_string(&self, alloc: Global) -> Result<String, Memory>
        ensures { IfOk result (λ text. string_bytes text ≡ decimal (error_code self.now)) }
    {
        format!(in alloc; "{}", self.code())
    }

    /// The words for the device, but for what they end with.
    fn words(&self) -> &'static str
        ensures { result.now ++ error_subject self.now ≡ error_text self.now }
    {
        match self {
            ErrorKind::Bad400 { .. } => "bad ",
            ErrorKind::LowForm400 => "low form",
            ErrorKind::SincePast400 { .. } => "since is past ",
            ErrorKind::BadHistory400 => "bad history",
            ErrorKind::UserGone401 => "user is gone",
            ErrorKind::Denied403 { .. } => "",
            ErrorKind::NoCheckpoint404 => "no checkpoint",
            ErrorKind::NoHandler404 => "no handler",
            ErrorKind::Conflict409 { .. } => "conflict ",
            ErrorKind::Checkpoint409 { .. } => "checkpoint is 0-",
            ErrorKind::FeedRuns409 => "feed is running",
            ErrorKind::UsePropose409 => "use proposeChanges",
            ErrorKind::TooLarge413 => "too large",
            ErrorKind::PendingFull503 => "pending is full",
            ErrorKind::CheckpointsFull503 => "checkpoints are full",
            ErrorKind::Memory507 => "no memory",
            ErrorKind::LogFull509 => "log is full",
        }
    }

    /// Puts what the words end with at the end: the field, number, rule or leaf of the error.
    fn write_subject(&self, out: &mut Bytes) -> Result<(), Memory>
        ensures { OnOk result (out.new ≡ out.old ++ error_subject self.now) }
    {
        match self {
            ErrorKind::Bad400 { field } => out.extend_from_slice(field.as_str().as_bytes()),
            ErrorKind::SincePast400 { front } => write_decimal(*front, out),
            ErrorKind::Denied403 { rule } => out.extend_from_slice(rule.as_str().as_bytes()),
            ErrorKind::Conflict409 { leaf } => leaf.write(out),
            ErrorKind::Checkpoint409 { current } => write_decimal(*current, out),
            _ => Ok(()),
        }
    }

    /// Puts the words for the device at the end.
    fn write_text(&self, out: &mut Bytes) -> Result<(), Memory>
        ensures { OnOk result (out.new ≡ out.old ++ error_text self.now) }
    {
        out.extend_from_slice(self.words().as_bytes())?;
        self.write_subject(out)
    }
}

/// The empty reply. Allocates nothing.
pub fn write_ok(alloc: Global) -> Payload
    ensures { result ≡ ok_payload }
{
    Payload {
        props: Props::new(alloc),
        body: Bytes::new(alloc),
    }
}

/// The reply that says why a request is refused: domain and code as properties, and words as body.
pub fn write_error(alloc: Global, error: &ErrorKind) -> Result<Payload, Memory>
    ensures { IfOk result (λ payload. payload ≡ error_payload error.now) }
{
    let mut props = Vec::new(alloc);
    push_text(alloc, &mut props, "Error-Domain", error.domain())?;
    push(alloc, &mut props, "Error-Code", error.code_string(alloc)?)?;
    let mut body = Bytes::new(alloc);
    error.write_text(&mut body)?;
    Ok(Payload {
        props: Props::from_vec(props),
        body,
    })
}
