//! What a session does for an event.

ghost use Rattle.std.specs.Prelude.{◌≡◌, IfOk};
ghost use Rattle.session_core.specs.Acts.{listed_acts};

use blip_frame::{Kind, Payload};
use repl_messages::{Offers, Revision};
use sg_history::{Client, Key, Options, Rows};
use sg_outside::{Bytes, Memory};
use std::alloc::Global;

/// What is wanted of the ground: of the history, or of the checkpoints.
#[derive(Drop)]
pub enum Want {
    /// The user's feed after a since key.
    Feed {
        since: Key,
        options: Options,
    },
    /// The bodies of rows, each with at most `most` ancestors.
    Bodies {
        options: Options,
        rows: Rows,
        most: u64,
    },
    /// What is known of offered revisions.
    Ask {
        offers: Offers,
    },
    /// That a revision is stored.
    Propose {
        revision: Revision,
    },
    /// The checkpoint of the user's client.
    GetCheckpoint {
        client: Client,
    },
    /// That the user's client has this checkpoint, where it has the one of this number.
    SetCheckpoint {
        client: Client,
        rev: u64,
        body: Bytes,
    },
}

/// One thing to do.
#[derive(Drop)]
pub enum Act {
    /// Put the reply to the request of this number.
    Reply {
        number: u64,
        kind: Kind,
        urgent: bool,
        payload: Payload,
    },
    /// Put a request.
    Request {
        payload: Payload,
        no_reply: bool,
    },
    /// Have this of the ground, and take the answer as the next event.
    Want(Want),
}

/// What is to be done: first these replies and requests are put, in order; then what is wanted, if anything is, is had of the
/// ground.
#[derive(Drop)]
pub struct Acts {
    pub puts: Vec<Act>,
    pub want: Option<Want>,
}

impl Acts {
    /// All in one list, of which a want is the last.
    pub fn into_list(self) -> Result<Vec<Act>, Memory>
        ensures { IfOk result (λ acts. acts.items ≡ listed_acts self.puts.items self.want) }
    {
        let Acts { mut puts, want } = self;
        if let Some(want) = want {
            puts.push(Act::Want(want))?;
        }
        Ok(puts)
    }
}
