//! The lists of channels with an index of their own.

ghost use Rattle.std.specs.Prelude.{◌≡◌, ◌<◌, ◌≤◌, ◌+◌, ◌-◌, ◌++◌, ℕ, [], ◌∷◌, List, true, length, max, slice_get, OnOk, OnErr, IfOk};
ghost use Rattle.sg_history.specs.declared.entries.Entry.{Entry};
ghost use Rattle.sg_history.specs.History.{past};
ghost use Rattle.channel_cache.specs.Kept.{AreAsBefore, AreEmpty, WereAsked, asked, is_filled, refills_at};
ghost use Rattle.channel_cache.specs.Listed.{listed, sequences_of};
ghost use Rattle.channel_cache.specs.Reads.{ask_reads, list_reads};
ghost use Rattle.channel_cache.specs.Stands.{CachedOf, IndexesTo, StandsFor, has};
ghost use Rattle.channel_cache.specs.inner.DocumentsRead.{document_read, documents_read};

use crate::found::{DocSeq, DocSeqs, Found, Listed};
use crate::lists::Lists;
use log_index::LogIndex;
use sg_history::{ChannelName, LogReads};
use sg_outside::Memory;
use std::alloc::{AllocError, Global};
use std::marker::Model;
use std::slice::from_ref;

/// The documents of the channels that were asked for last, up to a place of a log, and an index of the log.
#[derive(Drop)]
pub struct Caches {
    alloc: Global,
    index: LogIndex,
    lists: Lists,
}

impl Model for Caches {
    ghost use Rattle.channel_cache.specs.Kept.{Cached};

    ghost Value = { Cached };

    ghost view = { λ c. record { lists = c.lists; index = c.index } };
}

/// The index takes the entry of a sequence, the next one, which it reads.
fn take_next(index: &mut LogIndex, log: &mut LogReads<'_>, seq: u64) -> Result<(), Memory>
    requires low { 0 < seq }
    requires high { seq ≤ length log.old.entries }
    requires index { index.old ≡ past log.old.entries (seq - 1) }
    ensures ok { OnOk result (index.new ≡ past log.old.entries seq) }
    ensures err { OnErr result (index.new ≡ index.old) }
    ensures log { log.new.entries ≡ log.old.entries }
    ensures reads { log.new.reads ≤ log.old.reads + 1 }
{
    let entry = log.entry(seq);
    index.push(entry)?;
    Ok(())
}

/// The index has the entries up to a place, each of which it reads once.
fn take_entries(index: &mut LogIndex, log: &mut LogReads<'_>, to: u64) -> Result<(), Memory>
    requires within { to ≤ length log.old.entries }
    requires index { IndexesTo index.old log.old.entries 0 }
    ensures ok { OnOk result (IndexesTo index.new log.old.entries to) }
    ensures kept { (n : ℕ) → IndexesTo index.old log.old.entries n
        → IndexesTo index.new log.old.entries n }
    ensures log { log.new.entries ≡ log.old.entries }
    ensures reads { log.new.reads ≤ log.old.reads + (to - length index.old) }
{
    for place in index.count()..to {
        take_next(index, log, place + 1)?;
    }
    Ok(())
}

/// Puts the document that the entry of a sequence writes, where it is a write, behind others.
fn add_document(
    alloc: Global,
    log: &mut LogReads<'_>,
    documents: &mut Vec<DocSeq>,
    seq: u64,
) -> Result<(), Memory>
    requires low { 0 < seq }
    requires high { seq ≤ length log.old.entries }
    ensures document { OnOk result (documents.new.items ≡ documents.old.items
        ++ document_read (slice_get log.old.entries (seq - 1)) seq) }
    ensures log { log.new.entries ≡ log.old.entries }
    ensures reads { log.new.reads ≤ log.old.reads + 1 }
{
    match log.entry(seq).as_write() {
        None => Ok(()),
        Some(write) => {
            let doc = write.doc.copy(alloc)?;
            documents.push(DocSeq { doc, seq })?;
            Ok(())
        }
    }
}

/// The documents that the entries of these sequences write.
fn documents_at(
    alloc: Global,
    log: &mut LogReads<'_>,
    sequences: &[u64],
) -> Result<Vec<DocSeq>, Memory>
    requires { (seq : ℕ) → has sequences.now seq ≡ true
        → (0 < seq) × (seq ≤ length log.old.entries) }
    ensures documents { IfOk result (λ documents. documents.items
        ≡ documents_read log.old.entries sequences.now) }
    ensures log { log.new.entries ≡ log.old.entries }
    ensures reads { log.new.reads ≤ log.old.reads + length sequences.now }
{
    let mut documents = Vec::with_capacity(alloc, sequences.len())?;
    for seq in sequences {
        add_document(alloc, log, &mut documents, *seq)?;
    }
    Ok(documents)
}

/// Asks for one channel.
fn ask_channel(
    lists: &mut Lists,
    index: &LogIndex,
    log: &mut LogReads<'_>,
    channel: &ChannelName,
    to: u64,
) -> Result<Found, Memory>
    requires within { to ≤ length log.old.entries }
    requires stands { StandsFor lists.old log.old.entries }
    requires index { IndexesTo index.now log.old.entries to }
    ensures sequences { IfOk result (λ found. found.sequences.items
        ≡ sequences_of (listed (past log.old.entries to) channel.now)) }
    ensures refills { IfOk result (λ found. found.refills
        ≡ refills_at lists.old (channel.now ∷ []) to) }
    ensures asked { OnOk result (lists.old.place ≤ to
        → WereAsked lists.old lists.new (channel.now ∷ []) to) }
    ensures behind { OnOk result (to < lists.old.place → AreAsBefore lists.old lists.new) }
    ensures from { lists.old.place ≤ lists.new.place }
    ensures up_to { lists.new.place ≤ max lists.old.place to }
    ensures stands { StandsFor lists.new log.old.entries }
    ensures most { lists.new.most ≡ lists.old.most }
    ensures log { log.new.entries ≡ log.old.entries }
    ensures reads { log.new.reads
        ≤ log.old.reads + ask_reads lists.old log.old.entries (channel.now ∷ []) to }
{
    lists.ask(index, log, from_ref(channel), to)
}

impl Caches {
    /// Caches of none, of at most so many channels.
    pub fn new(alloc: Global, channels: u64) -> Result<Caches, Memory>
        requires { 0 < channels }
        ensures empty { IfOk result (λ caches. AreEmpty caches.lists channels) }
        ensures stands { IfOk result (λ caches. (entries : List Entry) → CachedOf caches entries) }
    {
        Ok(Caches {
            alloc,
            index: LogIndex::new(alloc),
            lists: Lists::new(alloc, channels)?,
        })
    }

    /// The documents that are in a channel after the entries up to a place, with the sequences of their last
    /// writes, by rising sequence. Out of memory no list is kept.
    pub fn list(
        &mut self,
        log: &mut LogReads<'_>,
        channel: &ChannelName,
        to: u64,
    ) -> Result<Listed, Memory>
        requires within { to ≤ length log.old.entries }
        requires stands { CachedOf self.old log.old.entries }
        ensures documents { IfOk result (λ found. found.documents
            ≡ listed (past log.old.entries to) channel.now) }
        ensures refilled { IfOk result (λ found. found.refilled
            ≡ is_filled self.old.lists channel.now to) }
        ensures asked { OnOk result (self.old.lists.place ≤ to
            → WereAsked self.old.lists self.new.lists (channel.now ∷ []) to) }
        ensures behind { OnOk result (to < self.old.lists.place
            → AreAsBefore self.old.lists self.new.lists) }
        ensures none { OnErr result (asked self.new.lists ≡ []) }
        ensures from { self.old.lists.place ≤ self.new.lists.place }
        ensures up_to { self.new.lists.place ≤ max self.old.lists.place to }
        ensures stands { CachedOf self.new log.old.entries }
        ensures most { self.new.lists.most ≡ self.old.lists.most }
        ensures log { log.new.entries ≡ log.old.entries }
        ensures reads { log.new.reads
            ≤ log.old.reads + list_reads self.old.lists log.old.entries channel.now to }
    {
        match self.look(log, channel, to) {
            Ok(found) => Ok(found),
            Err(_) => {
                self.lists.forget();
                Err(AllocError)
            }
        }
    }

    /// The same, but that out of memory lists may be kept.
    fn look(
        &mut self,
        log: &mut LogReads<'_>,
        channel: &ChannelName,
        to: u64,
    ) -> Result<Listed, Memory>
        requires within { to ≤ length log.old.entries }
        requires stands { CachedOf self.old log.old.entries }
        ensures documents { IfOk result (λ found. found.documents
            ≡ listed (past log.old.entries to) channel.now) }
        ensures refilled { IfOk result (λ found. found.refilled
            ≡ is_filled self.old.lists channel.now to) }
        ensures asked { OnOk result (self.old.lists.place ≤ to
            → WereAsked self.old.lists self.new.lists (channel.now ∷ []) to) }
        ensures behind { OnOk result (to < self.old.lists.place
            → AreAsBefore self.old.lists self.new.lists) }
        ensures from { self.old.lists.place ≤ self.new.lists.place }
        ensures up_to { self.new.lists.place ≤ max self.old.lists.place to }
        ensures stands { CachedOf self.new log.old.entries }
        ensures most { self.new.lists.most ≡ self.old.lists.most }
        ensures log { log.new.entries ≡ log.old.entries }
        ensures reads { log.new.reads
            ≤ log.old.reads + list_reads self.old.lists log.old.entries channel.now to }
    {
        take_entries(&mut self.index, log, to)?;
        let found = ask_channel(&mut self.lists, &self.index, log, channel, to)?;
        let documents = documents_at(self.alloc, log, found.sequences.as_slice())?;
        Ok(Listed {
            documents: DocSeqs::from_vec(documents),
            refilled: found.refills != 0,
        })
    }
}
