//! Lists of sequences that others enter and leave.

ghost use Rattle.std.specs.Prelude.{◌≡◌, ◌∷◌, [], ◌||◌, ◌&&◌, ℕ, nat_eq, not, OnOk};
ghost use Rattle.channel_cache.specs.Sequences.{holds, sequences_in};
ghost use Rattle.channel_cache.specs.inner.Counting.{counts_at};
ghost use Rattle.channel_cache.specs.Stands.{has};

use crate::order::{in_order, lacks};
use log_index::LogIndex;
use sg_outside::Memory;
use std::alloc::Global;

/// Sequences of writes: those of a list that did not leave since, and those that entered after these left. It has how many
/// counted when it was gone over last; one counts where its document was not written again.
#[derive(Drop)]
pub struct Sequences {
    pub list: Vec<u64>,
    pub left: Vec<u64>,
    pub entered: Vec<u64>,
    pub counted: u64,
}

/// Takes those that left out of a list, and puts those that entered into it.
fn settle(list: &mut Vec<u64>, left: &mut Vec<u64>, entered: &mut Vec<u64>) -> Result<(), Memory>
    ensures ok { OnOk result ((seq : ℕ) → has list.new.items seq
        ≡ ((has list.old.items seq && not (has left.old.items seq)) || has entered.old.items seq)) }
    ensures left { left.new.items ≡ [] }
    ensures entered { OnOk result (entered.new.items ≡ []) }
{
    take_out(list, left);
    list.append(entered)?;
    Ok(())
}

/// Takes those that left out of a list. Allocates nothing.
fn take_out(list: &mut Vec<u64>, left: &mut Vec<u64>)
    ensures list { (seq : ℕ) → has list.new.items seq
        ≡ (has list.old.items seq && not (has left.old.items seq)) }
    ensures left { left.new.items ≡ [] }
{
    if left.is_empty() {
        return;
    }
    left.sort_unstable();
    let gone = left.as_slice();
    list.retain(|seq| lacks(gone, *seq));
    left.clear();
}

impl Sequences {
    /// None. Allocates nothing.
    pub fn new(alloc: Global) -> Sequences
        ensures { sequences_in result ≡ [] }
    {
        Sequences {
            list: Vec::new(alloc),
            left: Vec::new(alloc),
            entered: Vec::new(alloc),
            counted: 0,
        }
    }

    /// A sequence enters.
    pub fn enter(&mut self, seq: u64) -> Result<(), Memory>
        ensures { OnOk result ((s : ℕ) → holds self.new s ≡ (holds self.old s || nat_eq s seq)) }
    {
        self.entered.push(seq)?;
        Ok(())
    }

    /// Its list has all its sequences, and no others.
    fn gather(&mut self) -> Result<(), Memory>
        ensures same { OnOk result ((s : ℕ) → holds self.new s ≡ holds self.old s) }
        ensures left { OnOk result (self.new.left.items ≡ []) }
        ensures entered { OnOk result (self.new.entered.items ≡ []) }
    {
        settle(&mut self.list, &mut self.left, &mut self.entered)
    }

    /// The same where some entered since others left.
    fn gather_entered(&mut self) -> Result<(), Memory>
        ensures same { OnOk result ((s : ℕ) → holds self.new s ≡ holds self.old s) }
        ensures entered { OnOk result (self.new.entered.items ≡ []) }
    {
        if self.entered.is_empty() {
            return Ok(());
        }
        self.gather()
    }

    /// A sequence leaves.
    pub fn leave(&mut self, seq: u64) -> Result<(), Memory>
        ensures { OnOk result ((s : ℕ) → holds self.new s
            ≡ (holds self.old s && not (nat_eq s seq))) }
    {
        self.gather_entered()?;
        self.left.push(seq)?;
        Ok(())
    }

    /// Only those stay that count after the entries up to a place, each once and in order.
    pub fn tidy(&mut self, index: &LogIndex, place: u64) -> Result<(), Memory>
        ensures { OnOk result ((s : ℕ) → holds self.new s
            ≡ (holds self.old s && counts_at index.now place s)) }
    {
        self.gather()?;
        keep_counted(&mut self.list, index, place);
        in_order(&mut self.list);
        self.counted = self.list.len() as u64;
        Ok(())
    }

    /// The same where the list is twice what counted when it was gone over last, and 64 more.
    fn tidy_long(&mut self, index: &LogIndex, place: u64) -> Result<(), Memory>
        ensures { OnOk result ((s : ℕ) → (holds self.new s && counts_at index.now place s)
            ≡ (holds self.old s && counts_at index.now place s)) }
    {
        if self.is_long() {
            return self.tidy(index, place);
        }
        Ok(())
    }

    /// A sequence enters, and a list that has grown is gone over.
    pub fn enter_and_tidy(&mut self, index: &LogIndex, seq: u64, place: u64) -> Result<(), Memory>
        ensures { OnOk result ((s : ℕ) → (holds self.new s && counts_at index.now place s)
            ≡ ((holds self.old s || nat_eq s seq) && counts_at index.now place s)) }
    {
        self.enter(seq)?;
        self.tidy_long(index, place)
    }

    /// Whether the list is twice what counted when it was gone over last, and 64 more.
    fn is_long(&self) -> bool {
        let all = (self.list.len() as u64).saturating_add(self.entered.len() as u64);
        all > self.counted.saturating_mul(2).saturating_add(64)
    }

    /// Only those stay that count after the entries up to a place, and they go behind others.
    pub fn tidy_into(
        &mut self,
        found: &mut Vec<u64>,
        index: &LogIndex,
        place: u64,
    ) -> Result<(), Memory>
        ensures same { OnOk result ((s : ℕ) → holds self.new s
            ≡ (holds self.old s && counts_at index.now place s)) }
        ensures found { OnOk result ((s : ℕ) → has found.new.items s
            ≡ (has found.old.items s || holds self.new s)) }
    {
        self.tidy(index, place)?;
        self.add_to(found)
    }

    /// Puts all sequences behind others.
    pub fn add_to(&mut self, found: &mut Vec<u64>) -> Result<(), Memory>
        ensures found { OnOk result ((s : ℕ) → has found.new.items s
            ≡ (has found.old.items s || holds self.old s)) }
        ensures same { OnOk result ((s : ℕ) → holds self.new s ≡ holds self.old s) }
    {
        self.gather()?;
        found.extend_from_slice(self.list.as_slice())?;
        Ok(())
    }
}

/// Whether the document of the write of a sequence was not written again up to a place. Allocates nothing.
pub fn counts(index: &LogIndex, place: u64, seq: u64) -> bool
    ensures { result ≡ counts_at index.now place seq }
{
    match index.next(seq) {
        None => true,
        Some(next) => next > place,
    }
}

/// Only those stay that count after the entries up to a place. Allocates nothing.
fn keep_counted(list: &mut Vec<u64>, index: &LogIndex, place: u64)
    ensures { (seq : ℕ) → has list.new.items seq
        ≡ (has list.old.items seq && counts_at index.now place seq) }
{
    list.retain(|seq| counts(index, place, *seq));
}
