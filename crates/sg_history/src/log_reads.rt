//! A log that is read entry by entry, and counts its reads.

ghost use Rattle.std.specs.Prelude.{◌≡◌, ◌+◌, ◌-◌, ◌≤◌, min, length, Some, slice_get};

use crate::entries::{Entry, Log};
use std::marker::Model;

/// A counted reader of one log: there is no other way from it to the log. Contracts see the log's entries and the
/// number of reads, which stands still at its type's end.
#[derive(Drop)]
pub struct LogReads<'a> {
    log: &'a Log,
    reads: u64,
}

impl<'a> Model for LogReads<'a> {
    ghost use Rattle.sg_history.specs.CountedLog.{CountedLog};

    ghost Value = { CountedLog };

    ghost view = { λ r. record { entries = r.log.now.entries.list; reads = r.reads } };
}

impl<'a> LogReads<'a> {
    /// A reader that has read nothing. Allocates nothing.
    pub fn new(log: &'a Log) -> LogReads<'a>
        ensures entries { result.entries ≡ log.now.entries.list }
        ensures reads { result.reads ≡ 0 }
    {
        LogReads { log, reads: 0 }
    }

    /// How many entries the log has. This is no read.
    pub fn length(&self) -> u64
        ensures { result ≡ length self.now.entries }
    {
        self.log.entries.len() as u64
    }

    /// How many reads there were so far.
    pub fn reads(&self) -> u64
        ensures { result ≡ self.now.reads }
    {
        self.reads
    }

    /// Reads the entry of this sequence, counted from 1. Allocates nothing.
    pub fn entry(&mut self, k: u64) -> &'a Entry
        requires low { 1 ≤ k }
        requires high { k ≤ length self.old.entries }
        ensures entry { slice_get self.old.entries (k - 1) ≡ Some result.now }
        ensures kept { self.new.entries ≡ self.old.entries }
        ensures counted { self.new.reads ≡ min (self.old.reads + 1) 18446744073709551615 }
    {
        self.reads = self.reads.saturating_add(1);
        &self.log.entries.as_slice()[(k - 1) as usize]
    }
}
