//! The sequences of revisions' writes, by the first write of their document.

ghost use Rattle.std.specs.Prelude.{◌≡◌, ◌&&◌, ℕ, Some, OnOk, OnErr, IfOk, nat_eq, if◌then◌else◌};
ghost use Rattle.std.specs.BTreeMap.{get};
ghost use Rattle.std.specs.Ordering.{nat_cmp};
ghost use Rattle.sg_names.specs.declared.rev_id.RevId.{RevId};
ghost use Rattle.sg_names.specs.RevId.{same_rev};
ghost use Rattle.log_index.specs.Representation.{first_in, repeat_at, seq_in};

use sg_history::RevId;
use std::alloc::{AllocError, Global};
use std::collections::BTreeMap;
use std::collections::btree_map::Entry;

/// The sequences of revisions' writes: by the sequence of their document's first write, the
/// generation and the digest.
pub type Revisions = BTreeMap<(u64, u32, String), u64>;

/// The sequence that is kept of a revision.
pub fn seq_of(
    alloc: Global,
    revisions: &Revisions,
    first: u64,
    rev: &RevId,
) -> Result<Option<u64>, AllocError>
    ensures { IfOk result (λ found. found ≡ seq_in revisions.now first rev.now) }
{
    let digest = String::from_str(alloc, rev.digest.as_str())?;
    Ok(revisions.get(&(first, rev.generation, digest)).copied())
}

/// The writes of revisions that were written before: by their sequences, those of the first writes of their
/// revisions.
pub type Repeats = BTreeMap<u64, u64>;

/// The sequence of the first write of a revision that was written at this one. Allocates nothing.
pub fn first_of(repeats: &Repeats, seq: u64) -> u64
    ensures { result ≡ first_in repeats.now seq }
{
    repeats.get(&seq).copied().unwrap_or(seq)
}

/// Keeps that a revision was written once more, if it was written before.
fn put_repeat(repeats: &mut Repeats, before: Option<u64>, seq: u64) -> Result<(), AllocError>
    ensures ok { OnOk result ((other : ℕ) → get nat_cmp repeats.new other
        ≡ repeat_at repeats.old before seq other) }
    ensures err { OnErr result ((other : ℕ)
        → get nat_cmp repeats.new other ≡ get nat_cmp repeats.old other) }
{
    if let Some(before) = before {
        let first = first_of(repeats, before);
        repeats.insert(seq, first)?;
    }
    Ok(())
}

/// Keeps the sequence of a revision's write, and that of its first write where it was written before.
pub fn put_revision(
    alloc: Global,
    revisions: &mut Revisions,
    repeats: &mut Repeats,
    first: u64,
    rev: &RevId,
    seq: u64,
) -> Result<(), AllocError>
    ensures ok { OnOk result ((other : ℕ) (r : RevId) → seq_in revisions.new other r
        ≡ (if nat_eq first other && same_rev rev.now r then Some seq
        else seq_in revisions.old other r)) }
    ensures again { OnOk result ((other : ℕ) → get nat_cmp repeats.new other
        ≡ repeat_at repeats.old (seq_in revisions.old first rev.now) seq other) }
    ensures err { OnErr result ((other : ℕ) (r : RevId)
        → seq_in revisions.new other r ≡ seq_in revisions.old other r) }
    ensures none { OnErr result ((other : ℕ)
        → get nat_cmp repeats.new other ≡ get nat_cmp repeats.old other) }
{
    let digest = String::from_str(alloc, rev.digest.as_str())?;
    match revisions.entry((first, rev.generation, digest)) {
        Ok(Entry::Vacant(entry)) => {
            entry.insert(seq);
            Ok(())
        }
        Ok(Entry::Occupied(mut entry)) => {
            put_repeat(repeats, Some(*entry.get()), seq)?;
            entry.insert(seq);
            Ok(())
        }
        Err(_) => Err(AllocError),
    }
}
