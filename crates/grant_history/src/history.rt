//! The history of grants.

ghost use Rattle.std.specs.Prelude.{◌≡◌, ◌⊎◌, ◌<◌, ◌≤◌, ◌+◌, ◌-◌, ◌*◌, ℕ, List, ◌∷◌, length, max, min, reverse, OnOk, OnErr, IfOk};
ghost use Rattle.log_index.specs.Index.{Indexes};
ghost use Rattle.sg_history.specs.declared.entries.Entry as entry;
ghost use Rattle.sg_history.specs.History.{among, past};
ghost use Rattle.sg_history.specs.Principals.{exists, user_at, has_channel, has_role};
ghost use Rattle.sg_history.specs.Current.{current};
ghost use Rattle.log_views.specs.Sorted.{AreSorted};
ghost use Rattle.grant_history.specs.declared.facts.Fact as facts_of;
ghost use Rattle.grant_history.specs.AppliedLog.{changed_at};
ghost use Rattle.grant_history.specs.inner.Changes.{IsMarking};
ghost use Rattle.grant_history.specs.Facts as facts;
ghost use Rattle.grant_history.specs.Ledger.{GiveSame, IsLedger, Took};
ghost use Rattle.grant_history.specs.NewStates.{by_marks};
ghost use Rattle.grant_history.specs.Store.{has_at};
ghost use Rattle.grant_history.specs.Periods.{AreInOrder, ArePeriods};
ghost use Rattle.grant_history.specs.LedgerAt.{IsNextApplied, LedgerAt};
ghost use Rattle.grant_history.specs.Stands.{IsIndexed, StandsFor};

use crate::changes::take_marked;
use crate::facts::Fact;
use crate::given::of_entry;
use crate::ledger::{Ledger, Source};
use crate::periods::Period;
use crate::states::{since, state_of, states_marked};
use log_index::LogIndex;
use sg_history::{Channels, DocId, Entry, LogReads, Mark, Name, Names};
use sg_outside::Memory;
use std::alloc::Global;
use std::marker::Model;

/// A list of periods.
pub type Periods = sg_names::List<Period>;

/// Which channels and roles users had at the places of a log, up to the one that was applied last.
/// Contracts see how many entries are applied, and the entries that its index of the log has.
#[derive(Drop)]
pub struct GrantHistory {
    alloc: Global,
    applied: u64,
    index: LogIndex,
    ledger: Ledger,
}

impl Model for GrantHistory {
    ghost use Rattle.std.specs.Prelude.{reverse};
    ghost use Rattle.grant_history.specs.AppliedLog.{AppliedLog};
    ghost use Rattle.grant_history.specs.LedgerAt.{LedgerAt};
    ghost use Rattle.grant_history.specs.Store.{last_changes};

    ghost Value = { AppliedLog };

    ghost view = { λ h. record {
      applied = h.applied;
      index = h.index;
      changed = last_changes h.ledger.store;
    } };

    ghost invariant = { λ h. LedgerAt h.ledger (reverse h.index) h.applied };
}

/// Puts the entry at a place into an index, unless it has it.
fn index_entry(index: &mut LogIndex, entry: &Entry, at: u64) -> Result<(), Memory>
    ensures ok { OnOk result ((es : List Entry) → at ≡ length es + 1
        → Indexes index.old es ⊎ Indexes index.old (entry.now ∷ es)
        → Indexes index.new (entry.now ∷ es)) }
    ensures err { OnErr result ((es : List Entry) → at ≡ length es + 1
        → Indexes index.old es ⊎ Indexes index.old (entry.now ∷ es)
        → Indexes index.new es ⊎ Indexes index.new (entry.now ∷ es)) }
{
    if index.count() < at {
        index.push(entry)?;
    }
    Ok(())
}

/// What a document gives as it is after the entries that an index has.
fn document_facts(
    alloc: Global,
    index: &LogIndex,
    log: &mut LogReads<'_>,
    doc: &DocId,
) -> Result<Vec<Fact>, Memory>
    requires { (n : ℕ) × (n ≤ length log.old.entries)
        × Indexes index.now (past log.old.entries n) }
    ensures facts { IfOk result (λ list. (n : ℕ) → n ≤ length log.old.entries
        → Indexes index.now (past log.old.entries n)
        → list.items ≡ facts.document_facts (current (past log.old.entries n) doc.now)) }
    ensures log { log.new.entries ≡ log.old.entries }
    ensures reads { log.new.reads ≤ log.old.reads + 1 }
    ensures counted { min log.old.reads 18446744073709551615 ≤ log.new.reads }
{
    log_index::laws::marks();
    match state_of(index, doc) {
        None => Ok(Vec::new(alloc)),
        Some(state) => of_entry(alloc, log.entry(since(state)), state.marked),
    }
}

/// Documents give from a place on what these marks of the replacement there give, by an index that has
/// that. Out of memory each gives what it gave.
fn take_replacement(
    alloc: Global,
    index: &LogIndex,
    ledger: &mut Ledger,
    marks: &[Mark],
    at: u64,
) -> Result<(), Memory>
    requires { (e : entry.Entry) × (es : List entry.Entry)
        × IsMarking ledger.old at marks.now (by_marks index.now marks.now 0) e es }
    ensures ok { OnOk result ((e : entry.Entry) (es : List entry.Entry)
        → IsMarking ledger.old at marks.now (by_marks index.now marks.now 0) e es
        → Took ledger.new at e es) }
    ensures err { OnErr result ((es : List entry.Entry) → at ≡ length es + 1
        → IsLedger ledger.old es → IsLedger ledger.new es) }
    ensures before { (f : facts_of.Fact) (k : ℕ) → k < at
        → has_at ledger.new.store f k ≡ has_at ledger.old.store f k }
    ensures same { (e : entry.Entry) (es : List entry.Entry)
        → IsMarking ledger.old at marks.now (by_marks index.now marks.now 0) e es
        → GiveSame (e ∷ es) es → ledger.new.store ≡ ledger.old.store }
{
    let states = states_marked(alloc, index, marks)?;
    take_marked(alloc, ledger, marks, states.as_slice(), at)
}

/// Applies the entry at the next place to what is kept, by an index that has it.
fn take_entry(
    alloc: Global,
    index: &LogIndex,
    ledger: &mut Ledger,
    log: &mut LogReads<'_>,
    entry: &Entry,
    at: u64,
) -> Result<(), Memory>
    requires { IsNextApplied index.now ledger.old log.old.entries entry.now at }
    ensures ok { OnOk result (LedgerAt ledger.new log.old.entries at) }
    ensures err { OnErr result (LedgerAt ledger.new log.old.entries (at - 1)) }
    ensures same { GiveSame (past log.old.entries at) (past log.old.entries (at - 1))
        → ledger.new.store ≡ ledger.old.store }
    ensures log { log.new.entries ≡ log.old.entries }
    ensures reads { log.new.reads ≤ log.old.reads + 1 }
    ensures counted { min log.old.reads 18446744073709551615 ≤ log.new.reads }
{
    sg_history::laws::currents();
    match entry {
        Entry::Write(write) => {
            let facts = document_facts(alloc, index, log, &write.doc)?;
            ledger.take(alloc, Source::Document(&write.doc), facts, at)
        }
        Entry::Sync(_, marks) => take_replacement(alloc, index, ledger, marks.as_slice(), at),
        _ => ledger.take_put(alloc, entry, at),
    }
}

impl GrantHistory {
    /// A history of which nothing is applied. Allocates nothing.
    pub fn new(alloc: Global) -> GrantHistory
        ensures applied { result.applied ≡ 0 }
        ensures stands { (entries : List entry.Entry) → StandsFor result entries }
    {
        GrantHistory {
            alloc,
            applied: 0,
            index: LogIndex::new(alloc),
            ledger: Ledger::new(alloc),
        }
    }

    /// The place up to which the log is applied.
    pub fn applied(&self) -> u64
        ensures { result ≡ self.now.applied }
    {
        self.applied
    }

    /// The index of the log that it keeps: that of all of the log where that is applied to its end,
    /// and else of the entries that are applied, or of one more.
    pub fn index(&self) -> &LogIndex
        ensures whole { (entries : List entry.Entry) → StandsFor self.now entries
            → self.now.applied ≡ length entries → Indexes result.now (reverse entries) }
        ensures first { (entries : List entry.Entry) → StandsFor self.now entries
            → IsIndexed result.now entries self.now.applied }
    {
        &self.index
    }

    /// Applies the entry at the next place, which is one up to `to`.
    fn step(&mut self, log: &mut LogReads<'_>, to: u64) -> Result<(), Memory>
        requires stands { StandsFor self.old log.old.entries }
        requires more { self.old.applied < to }
        requires within { to ≤ length log.old.entries }
        ensures stands { StandsFor self.new log.old.entries }
        ensures ok { OnOk result (self.new.applied ≡ self.old.applied + 1) }
        ensures err { OnErr result (self.new.applied ≡ self.old.applied) }
        ensures log { log.new.entries ≡ log.old.entries }
        ensures reads { log.new.reads ≤ log.old.reads + 2 }
        ensures counted { min (log.old.reads + 1) 18446744073709551615 ≤ log.new.reads }
        ensures same { GiveSame (past log.old.entries (self.old.applied + 1))
            (past log.old.entries self.old.applied) → self.new.changed ≡ self.old.changed }
    {
        let at = self.applied + 1;
        let entry = log.entry(at);
        index_entry(&mut self.index, entry, at)?;
        take_entry(self.alloc, &self.index, &mut self.ledger, log, entry, at)?;
        self.applied = at;
        Ok(())
    }

    /// Applies the log up to a place. Out of memory it has applied it up to some place before that,
    /// and may go on from there. Each place takes at most two reads of the log.
    pub fn apply(&mut self, log: &mut LogReads<'_>, to: u64) -> Result<(), Memory>
        requires stands { StandsFor self.old log.old.entries }
        requires within { to ≤ length log.old.entries }
        ensures stands { StandsFor self.new log.old.entries }
        ensures ok { OnOk result (self.new.applied ≡ max self.old.applied to) }
        ensures from { self.old.applied ≤ self.new.applied }
        ensures up_to { self.new.applied ≤ max self.old.applied to }
        ensures log { log.new.entries ≡ log.old.entries }
        ensures reads { log.new.reads ≤ log.old.reads + 2 * (to - self.old.applied) }
        ensures counted { min (log.old.reads + (self.new.applied - self.old.applied)) 18446744073709551615
            ≤ log.new.reads }
        ensures same { ((k : ℕ) → self.old.applied ≤ k → k < to
            → GiveSame (past log.old.entries (k + 1)) (past log.old.entries k))
            → self.new.changed ≡ self.old.changed }
    {
        while self.applied < to {
            self.step(log, to)?;
        }
        Ok(())
    }

    /// Whether a user exists after the entries up to a place. Allocates nothing.
    pub fn exists_at(&self, user: &Name, k: u64) -> bool
        requires { k ≤ self.now.applied }
        ensures { (entries : List entry.Entry) → StandsFor self.now entries
            → result ≡ exists (user_at (past entries k) user.now) }
    {
        self.ledger.store.user_exists(user, k)
    }

    /// The channels that a user has after the entries up to a place, by rising bytes.
    pub fn channels_at(&self, user: &Name, k: u64) -> Result<Channels, Memory>
        requires { k ≤ self.now.applied }
        ensures sorted { IfOk result (λ channels. AreSorted channels) }
        ensures channels { IfOk result (λ channels. (entries : List entry.Entry)
            → StandsFor self.now entries → (c : List ℕ)
            → among channels c ≡ has_channel (past entries k) user.now c) }
    {
        let channels = self.ledger.store.channels(self.alloc, user, k)?;
        Ok(Channels::from_vec(channels))
    }

    /// The roles that a user has after the entries up to a place, by rising bytes.
    pub fn roles_at(&self, user: &Name, k: u64) -> Result<Names, Memory>
        requires { k ≤ self.now.applied }
        ensures sorted { IfOk result (λ roles. AreSorted roles) }
        ensures roles { IfOk result (λ roles. (entries : List entry.Entry)
            → StandsFor self.now entries → (r : List ℕ)
            → among roles r ≡ has_role (past entries k) user.now r) }
    {
        let roles = self.ledger.store.roles(self.alloc, user, k)?;
        Ok(Names::from_vec(roles))
    }

    /// A place from which on, up to the one that was applied last, a user has the same channels.
    /// Allocates nothing.
    pub fn changed(&self, user: &Name) -> u64
        ensures last { result ≡ changed_at self.now.changed user.now }
        ensures same { (entries : List entry.Entry) → StandsFor self.now entries
            → (k : ℕ) → result ≤ k → k ≤ self.now.applied → (c : List ℕ)
            → has_channel (past entries k) user.now c
            ≡ has_channel (past entries self.now.applied) user.now c }
        ensures within { result ≤ self.now.applied + 1 }
    {
        self.ledger.store.changed(user)
    }

    /// The periods in which a user has channels, up to the place that was applied last; one that
    /// lasts then has no end. They rise by channel, by bytes, and those of a channel by where they
    /// begin.
    pub fn periods(&self, user: &Name) -> Result<Periods, Memory>
        ensures periods { IfOk result (λ periods. (entries : List entry.Entry)
            → StandsFor self.now entries → ArePeriods periods
            (λ c k. has_channel (past entries k) user.now c) self.now.applied) }
        ensures in_order { IfOk result (λ periods. AreInOrder periods) }
    {
        let periods = self.ledger.store.periods(self.alloc, user)?;
        Ok(Periods::from_vec(periods))
    }
}
