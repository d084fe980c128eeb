//! Requests of a device.

ghost use Rattle.std.specs.Prelude.{◌≡◌, ◌≢◌, Ok, Err, IfOk, IfErr, Result};
ghost use Rattle.repl_messages.specs.declared.request.Request.{Request};
ghost use Rattle.repl_messages.specs.declared.request.RequestFault.{RequestFault};
ghost use Rattle.repl_messages.specs.Fields as spec;
ghost use Rattle.repl_messages.specs.Requests.{IsAnswer, IsAnswerTo, IsBounded};

use crate::checkpoint::{read_get_checkpoint, read_set_checkpoint};
use crate::laws::one_answer;
use crate::offers::Offers;
use crate::profile::{Profile, profile_of};
use crate::revision::{Revision, read_proposal};
use crate::rows::{read_changes, read_propose_changes};
use crate::sub_changes::read_sub_changes;
use blip_frame::Payload;
use blip_mux::Message;
use sg_history::{Client, Key, Options};
use sg_outside::Bytes;
use std::alloc::{AllocError, AllocFailed, Global};

/// The version of the protocol that a device speaks.
#[derive(Clone, Copy, Debug, PartialEq, Eq)]
pub enum Version {
    Two,
    Three,
}

/// What a device asks for.
#[derive(Drop)]
pub enum Request {
    /// The checkpoint that is stored for a client.
    GetCheckpoint {
        client: Client,
    },
    /// That a checkpoint is stored for a client in place of the one with the number `rev`; 0 says that none is. The body is
    /// a JSON object.
    SetCheckpoint {
        client: Client,
        rev: u64,
        body: Bytes,
    },
    /// The changes after `since`, in messages of at most `batch` rows; where it is continuous those that come later, too.
    SubChanges {
        since: Key,
        continuous: bool,
        batch: u64,
        options: Options,
    },
    /// Which of these revisions are known, and else from which they may descend. No offer has a parent.
    Changes {
        offers: Offers,
    },
    /// Which of these revisions may be proposed.
    ProposeChanges {
        offers: Offers,
    },
    /// That a revision is stored.
    Rev(Revision),
}

/// A property, or the body, by which a request or a revision is refused.
#[derive(Clone, Copy, Debug, PartialEq, Eq)]
pub enum Field {
    Client,
    Rev,
    Since,
    Batch,
    Filter,
    Channels,
    /// The message's body, where it is to have rows.
    Rows,
    Id,
    History,
    /// The message's body.
    Body,
}

impl Field {
    /// The property's name.
    pub fn as_str(&self) -> &'static str
        ensures { result.now ≡ spec.field_text self.now }
    {
        match self {
            Field::Client => "client",
            Field::Rev => "rev",
            Field::Since => "since",
            Field::Batch => "batch",
            Field::Filter => "filter",
            Field::Channels => "channels",
            Field::Rows => "rows",
            Field::Id => "id",
            Field::History => "history",
            Field::Body => "body",
        }
    }
}

/// Why a message is no request that the gateway takes.
#[derive(Clone, Copy, Debug, PartialEq, Eq)]
pub enum RequestFault {
    /// The property is outside its grammar, or absent where it is needed.
    Bad400 { field: Field },
    /// The since key is in a form that the gateway does not take.
    LowForm400,
    /// The message is of no name that the gateway knows.
    Unknown404,
    /// Memory ran out.
    Memory,
}

impl From<AllocError> for RequestFault {
    ghost use Rattle.std.specs.Prelude.{◌≡◌};
    ghost use Rattle.repl_messages.specs.declared.request.RequestFault.{RequestFault};
    ghost use Rattle.repl_messages.specs.declared.request.RequestFault.TheVariants.{Memory};

    ghost from_gives = { λ _ r. r ≡ Memory };

    fn from(_refused: AllocError) -> RequestFault {
        RequestFault::Memory
    }
}

impl<T: Drop> From<AllocFailed<T>> for RequestFault {
    ghost use Rattle.std.specs.Prelude.{◌≡◌};
    ghost use Rattle.repl_messages.specs.declared.request.RequestFault.{RequestFault};
    ghost use Rattle.repl_messages.specs.declared.request.RequestFault.TheVariants.{Memory};

    ghost from_gives = { λ _ r. r ≡ Memory };

    fn from(_refused: AllocFailed<T>) -> RequestFault {
        RequestFault::Memory
    }
}

/// The value, or else that the property is bad.
pub(crate) fn or_bad<T: Drop>(field: Field, value: Option<T>) -> Result<T, RequestFault>
    ensures { result ≡ spec.or_bad field value }
{
    match value {
        Some(value) => Ok(value),
        None => Err(RequestFault::Bad400 { field }),
    }
}

/// Reads a message of a device by its properties and its body: the request, or the refusal that is due. Of a
/// key that stands twice the first value counts. Takes room for what the request holds, and for the tree of a JSON body.
pub fn read_request(
    alloc: Global,
    message: &Message,
    version: Version,
) -> Result<Request, RequestFault>
    ensures ok { IfOk result (λ request. IsAnswer message.now.payload version (Ok request)) }
    ensures refused { IfErr result (λ fault. fault ≢ RequestFault.Memory
        → IsAnswer message.now.payload version (Err fault)) }

    ensures bounded { IfOk result IsBounded }

    // But for `Memory`, a message has this one answer.
    ensures only { (answer : Result Request RequestFault)
        → IsAnswer message.now.payload version answer
        → result ≢ Err RequestFault.Memory → result ≡ answer }
{
    one_answer();
    read_payload(
        alloc,
        profile_of(&message.payload.props),
        &message.payload,
        version,
    )
}

/// Reads a message of this name.
fn read_payload(
    alloc: Global,
    profile: Option<Profile>,
    payload: &Payload,
    version: Version,
) -> Result<Request, RequestFault>
    ensures ok { IfOk result (λ request. IsAnswerTo profile payload.now version (Ok request)) }
    ensures refused { IfErr result (λ fault. fault ≢ RequestFault.Memory
        → IsAnswerTo profile payload.now version (Err fault)) }
{
    match profile {
        None => Err(RequestFault::Unknown404),
        Some(Profile::GetCheckpoint) => read_get_checkpoint(alloc, &payload.props),
        Some(Profile::SetCheckpoint) => read_set_checkpoint(alloc, payload),
        Some(Profile::SubChanges) => read_sub_changes(alloc, version, &payload.props),
        Some(Profile::Changes) => read_changes(alloc, payload.body.as_slice()),
        Some(Profile::ProposeChanges) => read_propose_changes(alloc, payload.body.as_slice()),
        Some(Profile::Rev) => read_proposal(alloc, payload),
    }
}
