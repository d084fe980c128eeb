//! The checkpoints of all users and clients.

ghost use Rattle.std.specs.Prelude.{◌≡◌, ◌++◌, [], string_bytes, IfOk, OnOk};
ghost use Rattle.checkpoint_store.specs.Checkpoints.{checkpoint_text, IsPairText, AreCheckpoints};
ghost use Rattle.checkpoint_store.specs.Answers.{kept_at, Sets};

use crate::answers::{Kept0, SetAnswer};
use crate::kept::{Kept, read, set};
use sg_names::{Client, Name};
use sg_outside::{Bytes, Memory};
use std::alloc::Global;
use std::collections::BTreeMap;
use std::marker::Model;

/// How many bytes the body of a checkpoint may have.
const MOST_BYTES: usize = 4096;

/// Checkpoints, at most one for each user and client and 100,000 in all. Contracts see them as a side map, by rising texts,
/// each that of a user and a client.
#[derive(Drop)]
pub struct Checkpoints {
    alloc: Global,
    kept: Kept,
}

impl Model for Checkpoints {
    ghost use Rattle.std.specs.Prelude.{List};
    ghost use Rattle.sg_history.specs.Board.{SideEntry};
    ghost use Rattle.checkpoint_store.specs.Checkpoints.{AreCheckpoints};
    ghost use Rattle.checkpoint_store.specs.Stored.{side_of};

    ghost Value = { List SideEntry };

    ghost view = { λ c. side_of c.kept.entries };

    ghost invariant = { λ c. AreCheckpoints (side_of c.kept.entries) };
}

/// Puts the text of a user and a client behind what stands there.
fn push_pair(text: &mut String, user: &str, client: &str) -> Result<(), Memory>
    ensures { OnOk result (string_bytes text.new
        ≡ string_bytes text.old ++ checkpoint_text user.now client.now) }
{
    text.push_str(user)?;
    text.push_str("\0")?;
    text.push_str(client)?;
    Ok(())
}

/// The text of a user and a client, in no more room than it needs.
fn key_of(alloc: Global, user: &Name, client: &Client) -> Result<String, Memory>
    ensures text { IfOk result (λ key. string_bytes key ≡ checkpoint_text user.now client.now) }
    ensures pair { IfOk result (λ key. IsPairText (string_bytes key)) }
{
    let user = user.as_str();
    let client = client.as_str();
    let mut key = String::with_capacity(alloc, user.len() + 1 + client.len())?;
    push_pair(&mut key, user, client)?;
    Ok(key)
}

impl Checkpoints {
    /// No checkpoints. Allocates nothing.
    pub fn new(alloc: Global) -> Checkpoints
        ensures { result ≡ [] }
    {
        Checkpoints {
            alloc,
            kept: BTreeMap::new(alloc),
        }
    }

    /// The checkpoint of a user's client, with its whole body.
    pub fn get(&self, user: &Name, client: &Client) -> Result<Kept0, Memory>
        ensures kept { IfOk result (λ kept. kept
            ≡ kept_at self.now (checkpoint_text user.now client.now)) }
        ensures checkpoints { AreCheckpoints self.now }
    {
        let key = key_of(self.alloc, user, client)?;
        read(self.alloc, &self.kept, key.as_str())
    }

    /// Gives the user's client this body under the number after `rev`, where `rev` is the number of its checkpoint, 0 where it
    /// has none. The body is refused first where it has more than 4,096 bytes, then where another number is kept, then where
    /// 100,000 checkpoints leave no room for a new one or the number is the last. A checkpoint that is there is never dropped.
    pub fn set(&mut self, user: &Name, client: &Client, rev: u64, body: Bytes) -> SetAnswer
        ensures sets { Sets self.old (checkpoint_text user.now client.now) rev body result self.new }
        ensures checkpoints { AreCheckpoints self.new }
    {
        let alloc = self.alloc;
        let bytes = body.len();
        if bytes > MOST_BYTES {
            return SetAnswer::TooLarge413 {
                bytes: bytes as u64,
            };
        }
        match key_of(alloc, user, client) {
            Ok(key) => set(&mut self.kept, key, rev, body),
            Err(_) => SetAnswer::Memory,
        }
    }
}
