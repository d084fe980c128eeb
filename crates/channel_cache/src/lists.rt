//! The lists of channels, for a caller that has an index of the log.

ghost use Rattle.std.specs.Prelude.{◌≡◌, ◌<◌, ◌≤◌, ◌+◌, [], List, length, max, OnOk, OnErr, IfOk};
ghost use Rattle.sg_history.specs.declared.entries.Entry.{Entry};
ghost use Rattle.sg_history.specs.History.{past};
ghost use Rattle.channel_cache.specs.Kept.{AreAsBefore, AreEmpty, WereAsked, asked, forgotten, refills_at};
ghost use Rattle.channel_cache.specs.Listed.{listed_in, sequences_of};
ghost use Rattle.channel_cache.specs.Reads.{ask_reads};
ghost use Rattle.channel_cache.specs.Stands.{IndexesTo, StandsFor};

use crate::asking::ask_from;
use crate::found::Found;
use crate::kept::count;
use crate::sequences::Sequences;
use log_index::LogIndex;
use lru::LruCache;
use sg_history::{ChannelName, LogReads};
use sg_outside::Memory;
use std::alloc::{AllocError, Global};
use std::cmp::max;
use std::marker::Model;
use std::num::NonZeroUsize;

/// The documents of the channels that were asked for last, up to a place of a log. Contracts see the place, the
/// sequences that are kept under each channel, that of the channel asked for last first, and how many
/// channels there may be.
#[derive(Drop)]
pub struct Lists {
    alloc: Global,
    place: u64,
    kept: LruCache<String, Sequences>,
}

impl Model for Lists {
    ghost use Rattle.std.specs.Prelude.{map, string_bytes};
    ghost use Rattle.channel_cache.specs.Kept.{KeptLists};
    ghost use Rattle.channel_cache.specs.Sequences.{sequences_in};

    ghost Value = { KeptLists };

    ghost view = { λ l. record {
      place = l.place;
      lists = map (λ e. record { channel = string_bytes e.0; sequences = sequences_in e.1 })
          l.kept.entries;
      most = l.kept.cap;
    } };
}

fn crosses_threads<T: Send>(_value: &T) {}

/// Lists may be sent to another thread.
fn lists_cross_threads(lists: &Lists) {
    crosses_threads(lists);
}

/// The later one of two places.
fn later(place: u64, to: u64) -> u64
    ensures { result ≡ max place to }
{
    max(place, to)
}

impl Lists {
    /// Lists of none, of at most so many channels.
    pub fn new(alloc: Global, channels: u64) -> Result<Lists, Memory>
        requires { 0 < channels }
        ensures empty { IfOk result (λ lists. AreEmpty lists channels) }
        ensures stands { IfOk result (λ lists. (entries : List Entry) → StandsFor lists entries) }
    {
        let most = NonZeroUsize::new(channels as usize).unwrap();
        Ok(Lists {
            alloc,
            place: 0,
            kept: LruCache::sparse(alloc, most)?,
        })
    }

    /// Forgets the lists. The place stays. Allocates nothing.
    pub fn forget(&mut self)
        ensures forgotten { self.new ≡ forgotten self.old }
        ensures stands { (entries : List Entry) → StandsFor self.old entries
            → StandsFor self.new entries }
    {
        self.kept.clear();
    }

    /// The sequences of the documents that are in one of these channels after the entries up to a place. The lists
    /// go forward to the place; where they are behind it already, they stay as they are and all these channels
    /// are looked up in the log. Out of memory no list is kept, and the place may have come forward.
    pub fn ask(
        &mut self,
        index: &LogIndex,
        log: &mut LogReads<'_>,
        channels: &[ChannelName],
        to: u64,
    ) -> Result<Found, Memory>
        requires within { to ≤ length log.old.entries }
        requires stands { StandsFor self.old log.old.entries }
        requires index { IndexesTo index.now log.old.entries to }
        ensures sequences { IfOk result (λ found. found.sequences.items
            ≡ sequences_of (listed_in (past log.old.entries to) channels.now)) }
        ensures refills { IfOk result (λ found. found.refills
            ≡ refills_at self.old channels.now to) }
        ensures asked { OnOk result (self.old.place ≤ to
            → WereAsked self.old self.new channels.now to) }
        ensures behind { OnOk result (to < self.old.place → AreAsBefore self.old self.new) }
        ensures none { OnErr result (asked self.new ≡ []) }
        ensures from { self.old.place ≤ self.new.place }
        ensures up_to { self.new.place ≤ max self.old.place to }
        ensures stands { StandsFor self.new log.old.entries }
        ensures most { self.new.most ≡ self.old.most }
        ensures log { log.new.entries ≡ log.old.entries }
        ensures reads { log.new.reads
            ≤ log.old.reads + ask_reads self.old log.old.entries channels.now to }
    {
        let found = ask_from(
            self.alloc,
            &mut self.kept,
            self.place,
            index,
            log,
            channels,
            to,
        );
        match found {
            Ok(found) => {
                self.place = later(self.place, to);
                count(&self.kept);
                Ok(found)
            }
            Err(_) => {
                self.kept.clear();
                Err(AllocError)
            }
        }
    }
}
