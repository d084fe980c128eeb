//! The states that documents have from each entry of a log on.

ghost use Rattle.std.specs.Prelude.{◌≡◌, ◌<◌, ◌++◌, ◌∷◌, [], ℕ, nat_eq, length, Some, None, IfSome, OnOk, IfOk, if◌then◌else◌};
ghost use Rattle.std.specs.BTreeMap.{get};
ghost use Rattle.std.specs.Ordering.{nat_cmp};
ghost use Rattle.sg_history.specs.History.{as_sync, as_write};
ghost use Rattle.log_views.specs.States.{since_by};
ghost use Rattle.grant_history.specs.inner.MoreStates.{HasNoneAbove, IsOneMore};
ghost use Rattle.grant_history.specs.NewStates.{AreNewStates, by_mark, by_marks, marked_in, state_written, written_in};
ghost use Rattle.grant_history.specs.NewStates as new;

use log_index::{Document, LogIndex, Marked, is_mark};
use sg_history::{DocId, Entry, Mark};
use sg_outside::Memory;
use std::alloc::Global;
use std::collections::BTreeMap;
use std::marker::Model;

/// Where the state of a document stands, by sequences: the write of its winner, and the mark that has
/// the winner's effects; none where that write has them.
#[derive(Clone, Copy, Debug, PartialEq, Eq)]
pub struct NewState {
    pub winning: u64,
    pub marked: Option<Marked>,
}

/// The states of several documents.
#[derive(Drop)]
pub struct StateList {
    pub list: Vec<NewState>,
}

/// The states that documents have from each entry of a log on: eight bytes an entry, and more only where
/// a mark has the effects of a state.
#[derive(Drop)]
pub struct NewStates {
    winners: Vec<u64>,
    marks: BTreeMap<u64, Marked>,
    lists: BTreeMap<u64, StateList>,
}

impl Model for NewStates {
    ghost use Rattle.grant_history.specs.NewStates.{KeptStates};

    ghost Value = { KeptStates };

    ghost view = { λ s. record { winners = s.winners.items; marks = s.marks.entries; lists = s.lists.entries } };
}

impl NewStates {
    /// The state that the document which the entry at a place, counted from 0, writes has after it; none
    /// where that is no write. Allocates nothing.
    pub fn written(&self, i: usize) -> Option<NewState>
        ensures { result ≡ written_in self.now i }
    {
        let winning = *self.winners.get(i)?;
        if winning == 0 {
            return None;
        }
        let marked = self.marks.get(&(i as u64)).copied();
        Some(NewState { winning, marked })
    }

    /// The states of the documents to which the entry at a place, counted from 0, gives their effects by
    /// its marks, in the order of these; none where it replaces no sync function. Allocates nothing.
    pub fn marked(&self, i: usize) -> &[NewState]
        ensures { result.now ≡ marked_in self.now i }
    {
        match self.lists.get(&(i as u64)) {
            None => &[],
            Some(states) => states.list.as_slice(),
        }
    }
}

/// Keeps a value of a place, in place of the one before.
fn put<T: Drop>(map: &mut BTreeMap<u64, T>, place: u64, value: T) -> Result<(), Memory>
    ensures { OnOk result ((i : ℕ) → get nat_cmp map.new i
        ≡ (if nat_eq place i then Some value else get nat_cmp map.old i)) }
{
    map.insert(place, value)?;
    Ok(())
}

impl NewStates {
    /// Those of no entries. Allocates nothing.
    fn new(alloc: Global) -> NewStates
        ensures count { result.winners ≡ [] }
        ensures above { HasNoneAbove result }
    {
        NewStates {
            winners: Vec::new(alloc),
            marks: BTreeMap::new(alloc),
            lists: BTreeMap::new(alloc),
        }
    }

    /// Keeps of the next entry the state of the document that it writes, if it writes one.
    fn push_written(&mut self, state: Option<NewState>) -> Result<(), Memory>
        requires above { HasNoneAbove self.old }
        requires written { IfSome state (λ s. 0 < s.winning) }
        ensures { OnOk result (IsOneMore self.old self.new state []) }
    {
        match state {
            None => self.winners.push(0)?,
            Some(state) => {
                if let Some(marked) = state.marked {
                    put(&mut self.marks, self.winners.len() as u64, marked)?;
                }
                self.winners.push(state.winning)?;
            }
        }
        Ok(())
    }

    /// Keeps of the next entry the states of the documents to which its marks give their effects.
    fn push_marked(&mut self, list: Vec<NewState>) -> Result<(), Memory>
        requires { HasNoneAbove self.old }
        ensures { OnOk result (IsOneMore self.old self.new None list.items) }
    {
        put(
            &mut self.lists,
            self.winners.len() as u64,
            StateList { list },
        )?;
        self.winners.push(0)?;
        Ok(())
    }
}

/// Where the state of a document stands after the entries of an index, by where the document does.
fn state_by(index: &LogIndex, document: Option<Document>) -> Option<NewState>
    ensures { result ≡ new.state_by index.now document }
{
    let document = document?;
    Some(NewState {
        winning: document.winning,
        marked: index.marked(document.winning, index.count()),
    })
}

/// Where the state of a document stands after the entries of an index, if it was written. Allocates
/// nothing.
pub fn state_of(index: &LogIndex, doc: &DocId) -> Option<NewState>
    ensures { result ≡ new.state_of index.now doc.now }
{
    state_by(index, index.document(doc))
}

/// The sequence of the entry that has the effects of a state.
pub fn since(state: NewState) -> u64
    ensures { result ≡ since_by state.marked state.winning }
{
    match state.marked {
        None => state.winning,
        Some(marked) => marked.sync,
    }
}

/// Puts the state of a document behind others where the mark of this number of the last entry has its
/// effects.
fn add_marked(
    index: &LogIndex,
    list: &mut Vec<NewState>,
    doc: &DocId,
    number: usize,
) -> Result<(), Memory>
    ensures { OnOk result (list.new.items
        ≡ list.old.items ++ by_mark (new.state_of index.now doc.now) (length index.now) number) }
{
    if let Some(state) = state_of(index, doc) {
        if is_mark(state.marked, index.count(), number) {
            list.push(state)?;
        }
    }
    Ok(())
}

/// The states of the documents to which these marks of the last entry of an index give their effects.
pub fn states_marked(
    alloc: Global,
    index: &LogIndex,
    marks: &[Mark],
) -> Result<Vec<NewState>, Memory>
    ensures { IfOk result (λ list. list.items ≡ by_marks index.now marks.now 0) }
{
    let mut list = Vec::new(alloc);
    for (i, mark) in marks.iter().enumerate() {
        add_marked(index, &mut list, &mark.doc, i)?;
    }
    Ok(list)
}

/// Puts the next entry into an index, and keeps the states that documents have from it on.
fn add_states(
    alloc: Global,
    index: &mut LogIndex,
    states: &mut NewStates,
    entry: &Entry,
) -> Result<(), Memory>
    requires count { length index.old < 18446744073709551615 }
    requires above { HasNoneAbove states.old }
    ensures index { OnOk result (index.new ≡ entry.now ∷ index.old) }
    ensures states { OnOk result (IsOneMore states.old states.new
        (state_written (entry.now ∷ index.old) (as_write entry.now))
        (new.states_marked (entry.now ∷ index.old) (as_sync entry.now))) }
{
    let document = index.push(entry)?;
    match entry.as_sync() {
        None => states.push_written(state_by(index, document)),
        Some(replacement) => {
            let list = states_marked(alloc, index, replacement.marks.as_slice())?;
            states.push_marked(list)
        }
    }
}

/// Puts these entries into an index of none, and keeps the states that documents have from each on.
fn add_all_states(
    alloc: Global,
    index: &mut LogIndex,
    states: &mut NewStates,
    entries: &[Entry],
) -> Result<(), Memory>
    requires index { index.old ≡ [] }
    requires states { states.old.winners ≡ [] }
    requires above { HasNoneAbove states.old }
    ensures { OnOk result (AreNewStates entries.now states.new (length entries.now)) }
{
    for entry in entries {
        add_states(alloc, index, states, entry)?;
    }
    Ok(())
}

/// The states that documents have from each of these entries on. What the index of the entries takes is
/// given back.
pub fn new_states(alloc: Global, entries: &[Entry]) -> Result<NewStates, Memory>
    ensures { IfOk result (λ states. AreNewStates entries.now states (length entries.now)) }
{
    let mut states = NewStates::new(alloc);
    states.winners.reserve(entries.len())?;
    let mut index = LogIndex::new(alloc);
    add_all_states(alloc, &mut index, &mut states, entries)?;
    Ok(states)
}
