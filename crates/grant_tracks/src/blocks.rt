//! Which things may be held at a place, so that a look at it passes over few others.

ghost use Rattle.std.specs.Prelude.{◌≡◌, ◌≤◌, ◌<◌, ℕ, true, length, slice_index_or, OnOk};
ghost use Rattle.std.specs.List.Sorted.{IsNonDecreasingBy};
ghost use Rattle.grant_tracks.specs.Listed.{is_in};
ghost use Rattle.grant_tracks.specs.declared.blocks.Block.{Block};

use sg_outside::Memory;
use std::alloc::Global;
use std::mem;

/// The things that may be held before a place, from the end of the block before on.
#[derive(Drop)]
pub struct Block {
    to: u64,
    list: Vec<usize>,
}

/// For each place a list of the things that may be held there, each by where it stands among all. The
/// next block begins once the list of the last one is twice what it was at its beginning, or half of
/// that may be held no longer. So a list has at most four times as many things as are held at a place
/// of it, and some forty more, unless memory ran out as a block was to begin.
#[derive(Drop)]
pub struct Blocks {
    past: Vec<Block>,
    from: u64,
    last: Vec<usize>,
    began: usize,
    taken: usize,
    ghost rising: { IsNonDecreasingBy (λ (b : Block). b.to) past.items },
    ghost ended: { (i : ℕ) (d : Block) → i < length past.items
        → (slice_index_or past.items i d).to ≤ from },
}

/// How many of these blocks end at a place or before it.
fn ended(blocks: &[Block], k: u64) -> usize
    requires { IsNonDecreasingBy (λ (b : Block). b.to) blocks.now }
    ensures within { result ≤ length blocks.now }
    ensures before { (i : ℕ) (d : Block) → i < result → (slice_index_or blocks.now i d).to ≤ k }
    ensures after { (i : ℕ) (d : Block) → result ≤ i → i < length blocks.now
        → k < (slice_index_or blocks.now i d).to }
{
    blocks.partition_point(|b| b.to <= k)
}

/// A list with each thing once.
fn once(list: Vec<usize>) -> Vec<usize>
    ensures { (x : ℕ) → is_in list.items x ≡ true → is_in result.items x ≡ true }
{
    let mut list = list;
    list.sort_unstable();
    list.dedup();
    list
}

impl Blocks {
    ghost use Rattle.grant_tracks.specs.Blocks.{near};

    /// Nothing, at each place. Allocates nothing.
    pub fn new(alloc: Global) -> Blocks
        ensures { result.from ≡ 0 }
    {
        Blocks {
            past: Vec::new(alloc),
            from: 0,
            last: Vec::new(alloc),
            began: 0,
            taken: 0,
        }
    }

    /// The things that may be held at a place.
    pub fn at(&self, k: u64) -> &[usize]
        ensures { result.now ≡ near self.now k }
    {
        let past = self.past.as_slice();
        let next = ended(past, k);
        if next < past.len() {
            return past[next].list.as_slice();
        }
        self.last.as_slice()
    }

    /// The things that may be held from where the last block begins on.
    pub fn last(&self) -> &[usize]
        ensures { (k : ℕ) → self.now.from ≤ k → result.now ≡ near self.now k }
    {
        self.last.as_slice()
    }

    /// Whether the next block should begin.
    pub fn is_full(&self) -> bool {
        self.taken > (self.began / 2).saturating_add(8) || self.last.len() / 2 >= self.began.max(8)
    }

    /// Counts one more that may be held no longer.
    pub fn count(&mut self)
        ensures near { (k : ℕ) → near self.new k ≡ near self.old k }
        ensures from { self.new.from ≡ self.old.from }
    {
        self.taken = self.taken.saturating_add(1);
    }

    /// Adds a thing that may be held from where the last block begins on.
    pub fn add(&mut self, thing: usize) -> Result<(), Memory>
        ensures ok { OnOk result ((k : ℕ) → self.old.from ≤ k
            → is_in (near self.new k) thing ≡ true) }
        ensures kept { (k x : ℕ) → is_in (near self.old k) x ≡ true
            → is_in (near self.new k) x ≡ true }
        ensures from { self.new.from ≡ self.old.from }
    {
        self.last.push(thing)?;
        Ok(())
    }

    /// Begins a block at a place, with the things that may be held from there on. Out of memory the
    /// last one goes on.
    pub fn begin(&mut self, at: u64, list: Vec<usize>)
        requires { self.old.from ≤ at }
        ensures kept { (k x : ℕ) → is_in (near self.old k) x ≡ true
            → (at ≤ k → is_in list.items x ≡ true) → is_in (near self.new k) x ≡ true }
        ensures from { self.new.from ≤ at }
    {
        if self.past.reserve(1).is_ok() {
            let list = once(list);
            self.began = list.len();
            self.taken = 0;
            let list = mem::replace(&mut self.last, list);
            self.past.push_reserved(Block { to: at, list });
            self.from = at;
        }
    }
}
