//! Who had what at each place of some entries, by the states that documents have from each on.

ghost use Rattle.std.specs.Prelude.{◌≡◌, ◌≤◌, ◌<◌, ◌+◌, ◌-◌, ℕ, List, length, IfOk, OnOk, slice_get};
ghost use Rattle.std.specs.Option.{option_copied};
ghost use Rattle.sg_history.specs.declared.entries.Entry.{Entry};
ghost use Rattle.sg_history.specs.History.{past};
ghost use Rattle.sg_history.specs.Principals.{has_channel};
ghost use Rattle.sg_history.specs.Current.{current};
ghost use Rattle.log_views.specs.States.{since_by};
ghost use Rattle.grant_history.specs.Facts as facts;
ghost use Rattle.grant_history.specs.Periods.{AreInOrder, ArePeriods};
ghost use Rattle.grant_history.specs.LedgerAt.{LedgerAt, StoreAt};
ghost use Rattle.grant_history.specs.NewStates.{AreNewStates, marked_at, state_of, written_at};

use crate::changes::take_marked;
use crate::facts::Fact;
use crate::given::of_any_entry;
use crate::history::Periods;
use crate::ledger::{Ledger, Source};
use crate::states::{NewState, NewStates, since};
use crate::store::Store;
use sg_history::{Entry, Name};
use sg_outside::Memory;
use std::alloc::Global;

/// The entry that has the effects of a state.
fn entry_of<'a>(entries: &'a [Entry], state: NewState) -> Option<&'a Entry>
    ensures { option_copied result
        ≡ slice_get entries.now (since_by state.marked state.winning - 1) }
{
    entries.get(since(state).saturating_sub(1) as usize)
}

/// What a document gives whose state stands there; nothing where it was never written.
fn facts_of(alloc: Global, entries: &[Entry], state: Option<NewState>) -> Result<Vec<Fact>, Memory>
    ensures { IfOk result (λ list. (n : ℕ) (doc : List ℕ) → n ≤ length entries.now
        → state ≡ state_of (past entries.now n) doc
        → list.items ≡ facts.document_facts (current (past entries.now n) doc)) }
{
    log_index::laws::marks();
    match state {
        None => Ok(Vec::new(alloc)),
        Some(state) => of_any_entry(alloc, entry_of(entries, state), state.marked),
    }
}

/// Applies the entry at a place, counted from 0, to what is kept.
fn take_at(
    alloc: Global,
    ledger: &mut Ledger,
    entries: &[Entry],
    i: usize,
    state: Option<NewState>,
    marked: &[NewState],
) -> Result<(), Memory>
    requires more { i < length entries.now }
    requires written { state ≡ written_at entries.now i }
    requires marked { marked.now ≡ marked_at entries.now i }
    requires kept { LedgerAt ledger.old entries.now i }
    ensures { OnOk result (LedgerAt ledger.new entries.now (i + 1)) }
{
    sg_history::laws::currents();
    let at = i as u64 + 1;
    let entry = &entries[i];
    match entry {
        Entry::Write(write) => {
            let facts = facts_of(alloc, entries, state)?;
            ledger.take(alloc, Source::Document(&write.doc), facts, at)
        }
        Entry::Sync(_, marks) => take_marked(alloc, ledger, marks.as_slice(), marked, at),
        _ => ledger.take_put(alloc, entry, at),
    }
}

/// What is kept after these entries, by the states that documents have from each on.
fn ledger_of(alloc: Global, entries: &[Entry], states: &NewStates) -> Result<Ledger, Memory>
    requires { AreNewStates entries.now states.now (length entries.now) }
    ensures { IfOk result (λ kept. LedgerAt kept entries.now (length entries.now)) }
{
    let mut ledger = Ledger::new(alloc);
    for i in 0..entries.len() {
        take_at(
            alloc,
            &mut ledger,
            entries,
            i,
            states.written(i),
            states.marked(i),
        )?;
    }
    Ok(ledger)
}

/// Who had what at each place of these entries.
fn store_of(alloc: Global, entries: &[Entry], states: &NewStates) -> Result<Store, Memory>
    requires { AreNewStates entries.now states.now (length entries.now) }
    ensures { IfOk result (λ store. StoreAt store entries.now (length entries.now)) }
{
    let ledger = ledger_of(alloc, entries, states)?;
    Ok(ledger.store)
}

/// The periods in which a user has channels, up to the end of these entries, by the states that documents
/// have from each on; one that lasts then has no end. They rise by channel, by bytes, and those of a
/// channel by where they begin. It takes less memory than a history of grants that is asked for them.
pub fn periods_by(
    alloc: Global,
    entries: &[Entry],
    states: &NewStates,
    user: &Name,
) -> Result<Periods, Memory>
    requires { AreNewStates entries.now states.now (length entries.now) }
    ensures periods { IfOk result (λ periods. ArePeriods periods
        (λ c k. has_channel (past entries.now k) user.now c) (length entries.now)) }
    ensures in_order { IfOk result (λ periods. AreInOrder periods) }
{
    let store = store_of(alloc, entries, states)?;
    let periods = store.periods(alloc, user)?;
    Ok(Periods::from_vec(periods))
}
