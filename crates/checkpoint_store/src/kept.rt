//! Checkpoints, each by the text of its user and client.

ghost use Rattle.std.specs.Prelude.{◌≡◌, ◌≤◌, ◌+◌, length, string_bytes, is_some, Some, None, ℕ, IfOk, OnOk, OnErr, if◌then◌else◌};
ghost use Rattle.sg_history.specs.Board.{side_at};
ghost use Rattle.checkpoint_store.specs.SideMaps.{side_number, IsPut, IsRising};
ghost use Rattle.checkpoint_store.specs.Checkpoints.{IsPairText, AreCheckpoints};
ghost use Rattle.checkpoint_store.specs.Answers.{kept_at, answer_of, Sets};
ghost use Rattle.checkpoint_store.specs.Stored.{side_of, value_of};

use crate::answers::{Kept0, SetAnswer};
use sg_outside::{Bytes, Memory};
use std::alloc::Global;
use std::collections::BTreeMap;

/// How many pairs may have a checkpoint.
const MOST_PAIRS: usize = 100_000;

/// A number and a body that are kept.
#[derive(Drop)]
pub(crate) struct Checkpoint {
    pub rev: u64,
    pub body: Bytes,
}

pub(crate) type Kept = BTreeMap<String, Checkpoint>;

/// What is kept by a key, with a copy of the body.
pub(crate) fn read(alloc: Global, kept: &Kept, key: &str) -> Result<Kept0, Memory>
    ensures { IfOk result (λ found. found ≡ kept_at (side_of kept.now.entries) key.now) }
{
    let Some(found) = kept.get(key) else {
        return Ok(Kept0::Absent404);
    };
    Ok(Kept0::Found {
        rev: found.rev,
        body: found.body.copy(alloc)?,
    })
}

/// Keeps a checkpoint by a key, in place of the one that was kept by it before.
fn insert(kept: &mut Kept, key: String, checkpoint: Checkpoint) -> Result<(), Memory>
    ensures put { OnOk result (IsPut (side_of kept.old.entries) (string_bytes key)
        (value_of checkpoint) (side_of kept.new.entries)) }
    ensures rising { IsRising (side_of kept.new.entries) }
    ensures count { OnOk result (length (side_of kept.new.entries)
        ≡ length (side_of kept.old.entries)
        + (if is_some (side_at (side_of kept.old.entries) (string_bytes key)) then 0 else 1)) }
    ensures err { OnErr result (kept.new.entries ≡ kept.old.entries) }
{
    kept.insert(key, checkpoint)?;
    Ok(())
}

/// What a set answers that names `rev`, for a pair of which this number is kept.
fn answer_kept(current: u64, rev: u64) -> SetAnswer
    ensures { (pairs : ℕ) → result ≡ answer_of (Some current) pairs rev }
{
    if rev != current {
        return SetAnswer::Conflict409 { current };
    }
    if current == u64::MAX {
        return SetAnswer::Full503;
    }
    SetAnswer::Set { rev: current + 1 }
}

/// What a set answers that names `rev`, for a new pair where so many are kept.
fn answer_new(pairs: usize, rev: u64) -> SetAnswer
    ensures { result ≡ answer_of None pairs rev }
{
    if rev != 0 {
        return SetAnswer::Conflict409 { current: 0 };
    }
    if pairs >= MOST_PAIRS {
        return SetAnswer::Full503;
    }
    SetAnswer::Set { rev: 1 }
}

/// What a set answers that names `rev`, by what is kept by a key.
fn answer(kept: &Kept, key: &str, rev: u64) -> SetAnswer
    ensures { result ≡ answer_of (side_number (side_of kept.now.entries) key.now)
        (length (side_of kept.now.entries)) rev }
{
    match kept.get(key) {
        Some(found) => answer_kept(found.rev, rev),
        None => answer_new(kept.len(), rev),
    }
}

/// Sets a checkpoint by a key, where `rev` is the number that is kept by it.
pub(crate) fn set(kept: &mut Kept, key: String, rev: u64, body: Bytes) -> SetAnswer
    requires checkpoints { AreCheckpoints (side_of kept.old.entries) }
    requires pair { IsPairText (string_bytes key) }
    requires small { length body ≤ 4096 }
    ensures sets { Sets (side_of kept.old.entries) (string_bytes key) rev body result
        (side_of kept.new.entries) }
    ensures checkpoints { AreCheckpoints (side_of kept.new.entries) }
{
    let answered = answer(kept, key.as_str(), rev);
    let SetAnswer::Set { rev: next } = answered else {
        return answered;
    };
    match insert(kept, key, Checkpoint { rev: next, body }) {
        Ok(()) => answered,
        Err(_) => SetAnswer::Memory,
    }
}
