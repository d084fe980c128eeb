//! When something is held: by how many sources, and in which spans of places.

ghost use Rattle.std.specs.Prelude.{◌≡◌, ◌≤◌, ◌<◌, ◌+◌, ◌-◌, ◌++◌, ◌∷◌, [], ℕ, length, slice_index_or, nat_lt, IfOk, OnOk, OnErr};
ghost use Rattle.std.specs.List.{list_any};
ghost use Rattle.std.specs.List.Sorted.{IsNonDecreasingBy};
ghost use Rattle.grant_tracks.specs.inner.Cuts.{Covers};
ghost use Rattle.grant_tracks.specs.Spans.{closed_with, has_place};
ghost use Rattle.grant_tracks.specs.declared.track.Span.{Span};

use sg_outside::Memory;
use std::alloc::{AllocError, Global};

/// The places from one up to before another.
#[derive(Clone, Copy)]
pub struct Span {
    pub from: u64,
    pub to: u64,
}

/// When one thing is held: how many sources give it, where the last span in which any does or did
/// begins, where it ends if none does any more, and the spans before it.
#[derive(Drop)]
pub struct Track {
    count: u64,
    opened: u64,
    until: u64,
    closed: Vec<Span>,
    ghost placed: { (i : ℕ) (d : Span) → i < length closed.items
        → (slice_index_or closed.items i d).from ≤ (slice_index_or closed.items i d).to },
    ghost apart: { (i j : ℕ) (d : Span) → i < j → j < length closed.items
        → (slice_index_or closed.items i d).to ≤ (slice_index_or closed.items j d).from },
    ghost ended: { (i : ℕ) (d : Span) → i < length closed.items
        → (slice_index_or closed.items i d).to ≤ opened },
}

/// Adds where a span begins and where it ends.
fn add_ends(cuts: &mut Vec<u64>, span: &Span) -> Result<(), Memory>
    ensures { OnOk result (cuts.new.items
        ≡ cuts.old.items ++ span.now.from ∷ span.now.to ∷ []) }
{
    cuts.push(span.from)?;
    cuts.push(span.to)?;
    Ok(())
}

/// Adds where these spans begin and where they end.
fn add_spans(cuts: &mut Vec<u64>, spans: &[Span]) -> Result<(), Memory>
    ensures { OnOk result (Covers cuts.old.items cuts.new.items
        (λ k. list_any (has_place k) spans.now)) }
{
    for span in spans {
        add_ends(cuts, span)?;
    }
    Ok(())
}

/// Puts a span behind those before it, where it has a place.
fn close(closed: &mut Vec<Span>, from: u64, to: u64) -> Result<(), Memory>
    ensures ok { OnOk result (closed.new.items ≡ closed_with closed.old.items from to) }
    ensures err { OnErr result (closed.new.items ≡ closed.old.items) }
{
    if from < to {
        closed.push(Span { from, to })?;
    }
    Ok(())
}

/// How many of these spans end at a place or before it.
fn ended(spans: &[Span], k: u64) -> usize
    requires { IsNonDecreasingBy (λ (s : Span). s.to) spans.now }
    ensures within { result ≤ length spans.now }
    ensures before { (i : ℕ) (d : Span) → i < result → (slice_index_or spans.now i d).to ≤ k }
    ensures after { (i : ℕ) (d : Span) → result ≤ i → i < length spans.now
        → k < (slice_index_or spans.now i d).to }
{
    spans.partition_point(|s| s.to <= k)
}

impl Track {
    ghost use Rattle.grant_tracks.specs.Tracks.{BeginsAt, IsFresh, IsTrack, Moves, held_at, was_held};

    /// A track of what no source gives or gave.
    fn new(alloc: Global) -> Track
        ensures { IsFresh result }
    {
        Track {
            count: 0,
            opened: 0,
            until: 0,
            closed: Vec::new(alloc),
        }
    }

    /// A track of what one source gives from a place on.
    pub(crate) fn begun(alloc: Global, at: u64) -> Result<Track, Memory>
        ensures { IfOk result (λ track. BeginsAt track at) }
    {
        let mut track = Track::new(alloc);
        track.give(at)?;
        Ok(track)
    }

    /// Whether any source gives it.
    pub(crate) fn is_given(&self) -> bool
        ensures { result ≡ nat_lt 0 self.now.count }
    {
        self.count > 0
    }

    /// Whether any source gives it at a place.
    pub(crate) fn holds(&self, k: u64) -> bool
        ensures { result ≡ held_at self.now k }
    {
        self.held_before(k) || (self.opened <= k && (self.count > 0 || k < self.until))
    }

    fn held_before(&self, k: u64) -> bool
        ensures { result ≡ was_held self.now k }
    {
        let spans = self.closed.as_slice();
        let next = ended(spans, k);
        next < spans.len() && spans[next].from <= k
    }

    /// Adds the places at which it may change whether any source gives it.
    pub(crate) fn add_cuts(&self, cuts: &mut Vec<u64>) -> Result<(), Memory>
        ensures { OnOk result (Covers cuts.old.items cuts.new.items (held_at self.now)) }
    {
        add_spans(cuts, self.closed.as_slice())?;
        let last = Span {
            from: self.opened,
            to: self.until,
        };
        add_ends(cuts, &last)
    }

    /// One source more gives it from a place on. Out of memory, and where 2^64 - 1 sources give it
    /// already, it is as it was.
    pub(crate) fn give(&mut self, at: u64) -> Result<(), Memory>
        requires { IsTrack self.old at }
        ensures ok { OnOk result (Moves self.old self.new at (self.old.count + 1)) }
        ensures err { OnErr result (Moves self.old self.new at self.old.count) }
    {
        if self.count == u64::MAX {
            return Err(AllocError);
        }
        if self.count > 0 {
            self.count += 1;
            return Ok(());
        }
        close(&mut self.closed, self.opened, self.until)?;
        self.opened = at;
        self.count = 1;
        Ok(())
    }

    /// One source that gave it does not from a place on. Allocates nothing.
    pub(crate) fn take(&mut self, at: u64)
        requires given { 0 < self.old.count }
        requires room { IsTrack self.old at }
        ensures { Moves self.old self.new at (self.old.count - 1) }
    {
        if self.count == 1 {
            self.until = at;
        }
        self.count -= 1;
    }
}
