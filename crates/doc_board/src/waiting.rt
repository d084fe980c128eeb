//! Entries that wait, with the number of the document's write before each one that is a write.

ghost use Rattle.std.specs.Prelude.{◌≡◌, ◌≤◌, ◌<◌, ◌+◌, ◌*◌, ℕ, nat_eq, length, Some, None, OnOk, if◌then◌else◌};
ghost use Rattle.std.specs.HashMap.{get, spare};
ghost use Rattle.sg_history.specs.Book.{book_with, waiting_at};
ghost use Rattle.sg_history.specs.History.{Extends};
ghost use Rattle.sg_history.specs.World.{release as released};
ghost use Rattle.pending_front.specs.Pending.{AreBeyond};

use pending_front::Pending;
use sg_history::Log;
use sg_outside::Memory;
use std::collections::HashMap;

/// Of each write that waits, the number of its document's write before it, 0 where there is none.
pub type Bases = HashMap<u64, u64>;

/// Makes places for so many entries among those that wait.
fn make_waiting(pending: &mut Pending, bases: &mut Bases, more: u64) -> Result<(), Memory>
    ensures waiting { pending.new.waiting ≡ pending.old.waiting }
    ensures bases { (number : ℕ) → get nat_eq bases.new number ≡ get nat_eq bases.old number }
    ensures kept { (pending.old.spare ≤ pending.new.spare) × (spare bases.old ≤ spare bases.new) }
    ensures ok { OnOk result ((more ≤ pending.new.spare) × (more ≤ spare bases.new)) }
{
    pending.reserve(more)?;
    bases.reserve(more as usize)?;
    Ok(())
}

/// Makes places for so many entries, among those that wait and, for these and those that wait already, in the log.
pub fn make_places(
    log: &mut Log,
    pending: &mut Pending,
    bases: &mut Bases,
    more: u64,
) -> Result<(), Memory>
    requires few { length pending.old.waiting + more < 1000000 }
    ensures log { log.new.entries.list ≡ log.old.entries.list }
    ensures waiting { pending.new.waiting ≡ pending.old.waiting }
    ensures bases { (number : ℕ) → get nat_eq bases.new number ≡ get nat_eq bases.old number }
    ensures kept { (log.old.entries.spare ≤ log.new.entries.spare)
        × (pending.old.spare ≤ pending.new.spare) × (spare bases.old ≤ spare bases.new) }
    ensures ok { OnOk result ((more ≤ pending.new.spare) × (more ≤ spare bases.new)
        × (length pending.old.waiting + more ≤ log.new.entries.spare)) }
    ensures limit { log.new.limit ≡ log.old.limit }
{
    log.entries.reserve((pending.len() + more) as usize)?;
    make_waiting(pending, bases, more)
}

/// Keeps the number of the write before the one that is to wait under a number. Allocates nothing.
pub fn keep_base(bases: &mut Bases, number: u64, base: u64)
    requires { 0 < spare bases.old }
    ensures bases { (other : ℕ) → get nat_eq bases.new other
        ≡ (if nat_eq number other then Some base else get nat_eq bases.old other) }
    ensures spare { spare bases.old ≤ spare bases.new + 1 }
{
    let _ = bases.insert(number, base);
}

/// Lets go of what is kept for so many numbers after a front.
fn forget(bases: &mut Bases, front: u64, count: u64)
    requires { front + count < 18446744073709551615 }
    ensures others { (number : ℕ) → front + count < number
        → get nat_eq bases.new number ≡ get nat_eq bases.old number }
    ensures spare { spare bases.old ≤ spare bases.new }
{
    for i in 0..count {
        bases.remove(&(front + i + 1));
    }
}

/// Moves the entries that come next to the log's end, as long as one waits. Allocates nothing.
pub fn release(log: &mut Log, pending: &mut Pending, bases: &mut Bases)
    requires room { length pending.old.waiting ≤ log.old.entries.spare }
    requires beyond { AreBeyond log.old.entries.list pending.old.waiting }
    ensures released { record { log = log.new.entries.list; pending = pending.new.waiting }
        ≡ released log.old.entries.list pending.old.waiting }
    ensures next { waiting_at pending.new.waiting (length log.new.entries.list + 1) ≡ None }
    ensures beyond { AreBeyond log.new.entries.list pending.new.waiting }
    ensures book { book_with log.new.entries.list pending.new.waiting
        ≡ book_with log.old.entries.list pending.old.waiting }
    ensures extends { Extends log.old.entries.list log.new.entries.list }
    ensures longer { length log.old.entries.list ≤ length log.new.entries.list }
    ensures count { length log.new.entries.list + length pending.new.waiting
        ≡ length log.old.entries.list + length pending.old.waiting }
    ensures spare { pending.old.spare ≤ pending.new.spare }
    ensures log_spare { log.new.entries.spare + length log.new.entries.list
        ≡ log.old.entries.spare + length log.old.entries.list }
    ensures bases { (number : ℕ) → length log.new.entries.list < number
        → get nat_eq bases.new number ≡ get nat_eq bases.old number }
    ensures base_spare { spare bases.old ≤ spare bases.new }
    ensures limit { log.new.limit ≡ log.old.limit }
{
    let front = log.entries.as_slice().len() as u64;
    pending.release(log);
    let end = log.entries.as_slice().len() as u64;
    forget(bases, front, end - front);
}
