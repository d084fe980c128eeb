//! Entries that wait for their places in a log, with the places that were reserved for more.

ghost use Rattle.std.specs.Prelude.{◌≡◌, ◌≤◌, ◌<◌, ◌+◌, ◌∷◌, [], ℕ, true, false, length, Some, None, IfSome, IfNone, OnOk, OnErr, IsTrue, if◌then◌else◌};
ghost use Rattle.std.specs.Option.{option_copied};
ghost use Rattle.sg_history.specs.Book.{book_with, waiting_at};
ghost use Rattle.sg_history.specs.History.{Extends};
ghost use Rattle.sg_history.specs.World.{put_waiting, release, rises_from};
ghost use Rattle.pending_front.specs.Pending.{AreBeyond};

use sg_history::{Entry, Log};
use sg_outside::Memory;
use std::alloc::Global;
use std::collections::HashMap;
use std::marker::Model;

/// Entries that wait for their places in a log, with the places that were reserved for more. Contracts see the entries by
/// rising numbers, and the spare places as a number. An entry is put, found and taken by its number, however many wait.
#[derive(Drop)]
pub struct Pending {
    held: HashMap<u64, Entry>,
}

impl Model for Pending {
    ghost use Rattle.std.specs.Prelude.{IsTrue};
    ghost use Rattle.std.specs.HashMap.{spare as places};
    ghost use Rattle.sg_history.specs.World.{rises_from};
    ghost use Rattle.pending_front.specs.ByNumber.{rising};
    ghost use Rattle.pending_front.specs.Pending.{Reserved};

    ghost Value = { Reserved };

    ghost view = { λ p. record { waiting = rising p.held.entries; spare = places p.held } };

    ghost invariant = { λ p. IsTrue (rises_from 0 (rising p.held.entries)) };
}

impl Pending {
    /// No entries, and no reserved place. Allocates nothing.
    pub fn new(alloc: Global) -> Pending
        ensures { result.waiting ≡ [] }
    {
        Pending {
            held: HashMap::new(alloc),
        }
    }

    /// How many entries wait. Allocates nothing.
    pub fn len(&self) -> u64
        ensures count { result ≡ length self.now.waiting }
        ensures rises { IsTrue (rises_from 0 self.now.waiting) }
    {
        self.held.len() as u64
    }

    /// Makes room for `more` further entries, counted from the ones that are there. Room that is there stays.
    pub fn reserve(&mut self, more: u64) -> Result<(), Memory>
        ensures ok { OnOk result (more ≤ self.new.spare) }
        ensures waiting { self.new.waiting ≡ self.old.waiting }
        ensures spare { self.old.spare ≤ self.new.spare }
        ensures full { OnErr result (self.old.spare < more) }
    {
        self.held.reserve(more as usize)
    }

    /// Puts an entry into a reserved place, under a number under which none waits. Allocates nothing.
    pub fn put(&mut self, sequence: u64, entry: Entry)
        requires place { 0 < self.old.spare }
        requires from { 1 ≤ sequence }
        requires free { waiting_at self.old.waiting sequence ≡ None }
        ensures waiting { self.new.waiting
            ≡ put_waiting (record { number = sequence; entry = entry }) self.old.waiting }
        ensures spare { self.old.spare ≤ self.new.spare + 1 }
    {
        drop(self.held.insert(sequence, entry));
    }

    /// The entry that waits under a number, if one does. Allocates nothing.
    pub fn at(&self, number: u64) -> Option<&Entry>
        ensures { option_copied result ≡ waiting_at self.now.waiting number }
    {
        self.held.get(&number)
    }

    /// Takes the entry that waits under a number, if one does, where none waits under a lower one.
    fn take(&mut self, number: u64) -> Option<Entry>
        requires lowest { (lower : ℕ) → 1 ≤ lower → lower < number
            → waiting_at self.old.waiting lower ≡ None }
        ensures some { IfSome result (λ e. self.old.waiting
            ≡ record { number = number; entry = e } ∷ self.new.waiting) }
        ensures none { IfNone result (waiting_at self.old.waiting number ≡ None) }
        ensures same { IfNone result (self.new.waiting ≡ self.old.waiting) }
        ensures spare { self.old.spare ≤ self.new.spare }
        ensures rises { IsTrue (rises_from 0 self.old.waiting) }
    {
        self.held.remove(&number)
    }

    /// Moves the entry that comes next to the log's end, if it waits, and answers whether it did.
    #[tactic(auto, using(crate::proofs::Releasing::moves))]
    fn move_next(&mut self, log: &mut Log) -> bool
        requires room { length self.old.waiting ≤ log.old.entries.spare }
        requires beyond { AreBeyond log.old.entries.list self.old.waiting }
        ensures same { release log.new.entries.list self.new.waiting
            ≡ release log.old.entries.list self.old.waiting }
        ensures last { result ≡ false → release log.new.entries.list self.new.waiting
            ≡ record { log = log.new.entries.list; pending = self.new.waiting } }
        ensures moved { length log.new.entries.list
            ≡ length log.old.entries.list + (if result then 1 else 0) }
        ensures left { length self.new.waiting + (if result then 1 else 0)
            ≡ length self.old.waiting }
        ensures spare { self.old.spare ≤ self.new.spare }
        ensures log_spare { log.new.entries.spare + (if result then 1 else 0)
            ≡ log.old.entries.spare }
        ensures beyond { AreBeyond log.new.entries.list self.new.waiting }
        ensures limit { log.new.limit ≡ log.old.limit }
    {
        let next = log.entries.as_slice().len() as u64 + 1;
        let Some(entry) = self.take(next) else {
            return false;
        };
        log.entries.put(entry);
        true
    }

    /// Moves the entries that come next to the log's end, as long as one waits, and answers how many it moved.
    fn move_all(&mut self, log: &mut Log) -> u64
        requires room { length self.old.waiting ≤ log.old.entries.spare }
        requires beyond { AreBeyond log.old.entries.list self.old.waiting }
        ensures rises { IsTrue (rises_from 0 self.old.waiting) }
        ensures released { record { log = log.new.entries.list; pending = self.new.waiting }
            ≡ release log.old.entries.list self.old.waiting }
        ensures moved { length log.new.entries.list ≡ length log.old.entries.list + result }
        ensures left { length self.new.waiting + result ≡ length self.old.waiting }
        ensures spare { self.old.spare ≤ self.new.spare }
        ensures log_spare { log.new.entries.spare + result ≡ log.old.entries.spare }
        ensures limit { log.new.limit ≡ log.old.limit }
    {
        let mut moved = 0;
        for _ in 0..self.len() {
            if !self.move_next(log) {
                return moved;
            }
            moved += 1;
        }
        moved
    }

    /// Moves the waiting entry whose number is next to the log's end into the log, as long as there is one, and answers how many
    /// it moved. Allocates nothing.
    pub fn release(&mut self, log: &mut Log) -> u64
        requires room { length self.old.waiting ≤ log.old.entries.spare }
        requires beyond { AreBeyond log.old.entries.list self.old.waiting }
        ensures log { log.new.entries.list
            ≡ (release log.old.entries.list self.old.waiting).log }
        ensures waiting { self.new.waiting
            ≡ (release log.old.entries.list self.old.waiting).pending }
        ensures moved { length log.new.entries.list ≡ length log.old.entries.list + result }
        ensures next { waiting_at self.new.waiting (length log.new.entries.list + 1) ≡ None }
        ensures beyond { AreBeyond log.new.entries.list self.new.waiting }
        ensures book { book_with log.new.entries.list self.new.waiting
            ≡ book_with log.old.entries.list self.old.waiting }
        ensures left { length self.new.waiting + result ≡ length self.old.waiting }
        ensures extends { Extends log.old.entries.list log.new.entries.list }
        ensures spare { self.old.spare ≤ self.new.spare }
        ensures log_spare { log.new.entries.spare + result ≡ log.old.entries.spare }
        ensures limit { log.new.limit ≡ log.old.limit }
    {
        self.move_all(log)
    }
}
