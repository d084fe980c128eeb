//! A plain board: a log, and entries that wait for their places in it.

ghost use Rattle.std.specs.Prelude.{◌≡◌, ◌<◌, [], length, IfOk, OnOk};
ghost use Rattle.tests_of_history.specs.inner.Boards.{board_with, CanStore, Stores};

use pending_front::Pending;
use pending_front::laws::storing;
use seq_gate::Kept;
use sg_history::{Entry, Log};
use std::alloc::{AllocError, Global};

/// A log, and entries that wait for their places in it.
#[derive(Drop)]
pub struct Plain {
    pub log: Log,
    pub pending: Pending,
}

impl Kept for Plain {
    ghost seen = { λ b. board_with b.log.entries.list b.pending.waiting };

    fn front(&self) -> u64 {
        self.log.entries.as_slice().len() as u64
    }
}

/// A board with this log, and places for so many entries more.
pub fn board_of(alloc: Global, log: Log, more: u64) -> Result<Plain, AllocError>
    ensures { IfOk result (λ b. board_with b.log.entries.list b.pending.waiting
        ≡ board_with log.entries.list []) }
{
    let mut log = log;
    let mut pending = Pending::new(alloc);
    if let Err(fault) = log.entries.reserve(more as usize) {
        drop(pending);
        drop(log);
        return Err(fault);
    }
    if let Err(fault) = pending.reserve(more) {
        drop(pending);
        drop(log);
        return Err(fault);
    }
    Ok(Plain { log, pending })
}

impl Plain {
    /// Places for one entry more, which may wait, and for all that wait in the log.
    pub fn make_place(&mut self) -> Result<(), AllocError>
        ensures log { self.new.log.entries.list ≡ self.old.log.entries.list }
        ensures waiting { self.new.pending.waiting ≡ self.old.pending.waiting }
        ensures place { OnOk result (0 < self.new.pending.spare) }
        ensures room { OnOk result (length self.new.pending.waiting < self.new.log.entries.spare) }
    {
        let Some(all) = self.pending.len().checked_add(1) else {
            return Err(AllocError);
        };
        self.log.entries.reserve(all as usize)?;
        self.pending.reserve(1)
    }

    /// Stores an entry at a number, and moves what comes next to the log. Allocates nothing.
    pub fn store(&mut self, number: u64, entry: Entry)
        requires place { 0 < self.old.pending.spare }
        requires room { length self.old.pending.waiting < self.old.log.entries.spare }
        requires can { CanStore (board_with self.old.log.entries.list self.old.pending.waiting)
            number entry }
        ensures { Stores (board_with self.old.log.entries.list self.old.pending.waiting) number
            entry (board_with self.new.log.entries.list self.new.pending.waiting) }
    {
        storing();
        self.pending.put(number, entry);
        self.pending.release(&mut self.log);
    }
}
