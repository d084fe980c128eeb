//! Channels are asked for in turn.

ghost use Rattle.std.specs.Prelude.{◌≡◌, ◌≤◌, ◌<◌, ◌+◌, ◌∷◌, ◌++◌, [], ◌||◌, ◌&&◌, ℕ, List, true, false, not, length, nat_eq, nat_le, IfOk, OnOk, if◌then◌else◌};
ghost use Rattle.std.specs.Str.{bytes_eq};
ghost use Rattle.sg_history.specs.declared.entries.Entry.{Entry};
ghost use Rattle.sg_history.specs.History.{among, past};
ghost use Rattle.channel_cache.specs.Asked.{asked_after, asked_after_all, refills_of};
ghost use Rattle.channel_cache.specs.inner.Asking.{AreFull, Asks, HasNothing, names_of};
ghost use Rattle.channel_cache.specs.inner.Counting.{AreLists, counts_at};
ghost use Rattle.channel_cache.specs.Listed.{listed_in, sequences_of};
ghost use Rattle.channel_cache.specs.Reads.{filling, passed};
ghost use Rattle.channel_cache.specs.Sequences.{holds, holds_of, is_kept, list_of};
ghost use Rattle.channel_cache.specs.Stands.{IndexesTo, has};

use crate::filling::fill;
use crate::forward::bring_any;
use crate::found::Found;
use crate::kept::{Kept, count};
use crate::order::in_order;
use crate::sequences::Sequences;
use log_index::LogIndex;
use lru::LruCache;
use sg_history::{ChannelName, LogReads};
use sg_outside::Memory;
use std::alloc::Global;
use std::mem;

/// The list of a channel, where there is one, has only what counts up to a place, and that goes behind other sequences.
fn add_counted(
    lists: &mut Kept,
    found: &mut Vec<u64>,
    index: &LogIndex,
    channel: &str,
    to: u64,
) -> Result<(), Memory>
    ensures cap { lists.new.cap ≡ lists.old.cap }
    ensures keys { names_of lists.new.entries ≡ names_of lists.old.entries }
    ensures lists { OnOk result ((c : List ℕ) (s : ℕ) → holds_of lists.new.entries c s
        ≡ (holds_of lists.old.entries c s
        && (not (bytes_eq channel.now c) || counts_at index.now to s))) }
    ensures found { OnOk result ((s : ℕ) → has found.new.items s
        ≡ (has found.old.items s || holds_of lists.new.entries channel.now s)) }
{
    match lists.peek_mut(channel) {
        None => Ok(()),
        Some(list) => list.tidy_into(found, index, to),
    }
}

/// A channel gets a list of nothing, in place of the one before.
fn put_new(alloc: Global, lists: &mut Kept, channel: &ChannelName) -> Result<(), Memory>
    ensures cap { lists.new.cap ≡ lists.old.cap }
    ensures names { OnOk result (names_of lists.new.entries
        ≡ asked_after lists.old.cap channel.now (names_of lists.old.entries)) }
    ensures holds { OnOk result ((c : List ℕ) (s : ℕ) → is_kept lists.new.entries c ≡ true
        → holds_of lists.new.entries c s
        ≡ (holds_of lists.old.entries c s && not (bytes_eq channel.now c))) }
    ensures kept { OnOk result ((c : List ℕ) → is_kept lists.new.entries c ≡ true
        → (bytes_eq channel.now c || is_kept lists.old.entries c) ≡ true) }
    ensures room { OnOk result (lists.old.cap ≡ 18446744073709551615 → (c : List ℕ)
        → is_kept lists.new.entries c
        ≡ (bytes_eq channel.now c || is_kept lists.old.entries c)) }
{
    count(lists);
    let name = String::from_str(alloc, channel.as_str())?;
    let before = lists.put(name, Sequences::new(alloc))?;
    drop(before);
    Ok(())
}

/// A channel is wanted: it gets a list of nothing beside those of the others that are.
fn want(alloc: Global, wanted: &mut Kept, channel: &ChannelName) -> Result<(), Memory>
    requires nothing { HasNothing wanted.old.entries }
    requires room { wanted.old.cap ≡ 18446744073709551615 }
    ensures room { wanted.new.cap ≡ wanted.old.cap }
    ensures nothing { OnOk result (HasNothing wanted.new.entries) }
    ensures kept { OnOk result ((c : List ℕ) → is_kept wanted.new.entries c
        ≡ (bytes_eq channel.now c || is_kept wanted.old.entries c)) }
{
    put_new(alloc, wanted, channel)
}

/// The list of a channel, where there is one, is the first now.
fn promote(lists: &mut Kept, channel: &str) -> bool
    ensures kept { result ≡ is_kept lists.old.entries channel.now }
    ensures cap { lists.new.cap ≡ lists.old.cap }
    ensures names { result ≡ true → names_of lists.new.entries
        ≡ asked_after lists.old.cap channel.now (names_of lists.old.entries) }
    ensures same { result ≡ false → lists.new ≡ lists.old }
    ensures lists { (c : List ℕ)
        → list_of lists.new.entries c ≡ list_of lists.old.entries c }
{
    count(lists);
    lists.promote(channel)
}

/// Asks for a channel: what counts in its list goes behind other sequences; where it has none, it gets one of
/// nothing, and is wanted. Answers 1 where it is, else 0.
fn ask_one(
    alloc: Global,
    lists: &mut Kept,
    wanted: &mut Kept,
    found: &mut Vec<u64>,
    index: &LogIndex,
    channel: &ChannelName,
    to: u64,
) -> Result<u64, Memory>
    requires nothing { HasNothing wanted.old.entries }
    requires room { wanted.old.cap ≡ 18446744073709551615 }
    ensures cap { lists.new.cap ≡ lists.old.cap }
    ensures room { wanted.new.cap ≡ wanted.old.cap }
    ensures refills { IfOk result (λ refills. refills
        ≡ (if among (names_of lists.old.entries) channel.now then 0 else 1)) }
    ensures once { IfOk result (λ refills. refills ≤ 1) }
    ensures idle { IfOk result (λ refills. refills ≡ 0
        → wanted.new.entries ≡ wanted.old.entries) }
    ensures names { OnOk result (names_of lists.new.entries
        ≡ asked_after lists.old.cap channel.now (names_of lists.old.entries)) }
    ensures nothing { OnOk result (HasNothing wanted.new.entries) }
    ensures asks { OnOk result ((entries : List Entry) (earlier : List (List ℕ))
        → IndexesTo index.now entries to
        → Asks (past entries to) lists.old.entries wanted.old.entries found.old.items earlier
        → Asks (past entries to) lists.new.entries wanted.new.entries found.new.items
        (earlier ++ channel.now ∷ [])) }
{
    let name = channel.as_str();
    if promote(lists, name) {
        add_counted(lists, found, index, name, to)?;
        return Ok(0);
    }
    put_new(alloc, lists, channel)?;
    want(alloc, wanted, channel)?;
    Ok(1)
}

/// Asks for channels in turn, and answers how many are wanted at their turn.
fn ask_each(
    alloc: Global,
    lists: &mut Kept,
    wanted: &mut Kept,
    found: &mut Vec<u64>,
    index: &LogIndex,
    channels: &[ChannelName],
    to: u64,
) -> Result<u64, Memory>
    requires nothing { HasNothing wanted.old.entries }
    requires room { wanted.old.cap ≡ 18446744073709551615 }
    ensures cap { lists.new.cap ≡ lists.old.cap }
    ensures refills { IfOk result (λ refills. refills
        ≡ refills_of lists.old.cap channels.now (names_of lists.old.entries)) }
    ensures names { OnOk result (names_of lists.new.entries
        ≡ asked_after_all lists.old.cap channels.now (names_of lists.old.entries)) }
    ensures nothing { OnOk result (HasNothing wanted.new.entries) }
    ensures idle { IfOk result (λ refills. refills ≡ 0
        → wanted.new.entries ≡ wanted.old.entries) }
    ensures asks { OnOk result ((entries : List Entry) → IndexesTo index.now entries to
        → Asks (past entries to) lists.old.entries wanted.old.entries found.old.items []
        → Asks (past entries to) lists.new.entries wanted.new.entries found.new.items
        channels.now) }
{
    let mut refills = 0;
    for channel in channels {
        let one = ask_one(alloc, lists, wanted, found, index, channel, to)?;
        refills += one;
    }
    Ok(refills)
}

/// The list of a channel, where there is one, is this.
fn put_filled(lists: &mut Kept, channel: &str, list: Sequences)
    ensures cap { lists.new.cap ≡ lists.old.cap }
    ensures keys { names_of lists.new.entries ≡ names_of lists.old.entries }
    ensures lists { (c : List ℕ) (s : ℕ) → is_kept lists.old.entries c ≡ true
        → holds_of lists.new.entries c s
        ≡ (if bytes_eq channel.now c then holds list s else holds_of lists.old.entries c s) }
{
    match lists.peek_mut(channel) {
        None => drop(list),
        Some(kept) => drop(mem::replace(kept, list)),
    }
}

/// A list goes behind other sequences, and is that of a channel, where this has one.
fn take_filled(
    lists: &mut Kept,
    found: &mut Vec<u64>,
    channel: &str,
    filled: Sequences,
) -> Result<(), Memory>
    ensures cap { lists.new.cap ≡ lists.old.cap }
    ensures keys { OnOk result (names_of lists.new.entries ≡ names_of lists.old.entries) }
    ensures lists { OnOk result ((c : List ℕ) (s : ℕ) → is_kept lists.old.entries c ≡ true
        → holds_of lists.new.entries c s
        ≡ (if bytes_eq channel.now c then holds filled s else holds_of lists.old.entries c s)) }
    ensures found { OnOk result ((s : ℕ) → has found.new.items s
        ≡ (has found.old.items s || holds filled s)) }
{
    let mut list = filled;
    list.add_to(found)?;
    put_filled(lists, channel, list);
    Ok(())
}

/// What was filled of a channel goes behind other sequences, and is its list, where it has one.
fn take_one(
    lists: &mut Kept,
    wanted: &mut Kept,
    found: &mut Vec<u64>,
    channel: &ChannelName,
) -> Result<(), Memory>
    ensures cap { lists.new.cap ≡ lists.old.cap }
    ensures keys { OnOk result (names_of lists.new.entries ≡ names_of lists.old.entries) }
    ensures wanted { OnOk result ((c : List ℕ) → is_kept wanted.new.entries c
        ≡ (is_kept wanted.old.entries c && not (bytes_eq channel.now c))) }
    ensures asks { OnOk result ((es : List Entry) (channels : List (List ℕ))
        → AreFull es wanted.old.entries
        → Asks es lists.old.entries wanted.old.entries found.old.items channels
        → AreFull es wanted.new.entries
        × Asks es lists.new.entries wanted.new.entries found.new.items channels) }
{
    count(wanted);
    let name = channel.as_str();
    match wanted.pop(name) {
        None => Ok(()),
        Some(filled) => take_filled(lists, found, name, filled),
    }
}

/// The same of each of these channels.
fn take_each(
    lists: &mut Kept,
    wanted: &mut Kept,
    found: &mut Vec<u64>,
    channels: &[ChannelName],
) -> Result<(), Memory>
    ensures cap { lists.new.cap ≡ lists.old.cap }
    ensures keys { OnOk result (names_of lists.new.entries ≡ names_of lists.old.entries) }
    ensures asks { OnOk result ((es : List Entry) → AreFull es wanted.old.entries
        → Asks es lists.old.entries wanted.old.entries found.old.items channels.now
        → Asks es lists.new.entries [] found.new.items channels.now) }
{
    for channel in channels {
        take_one(lists, wanted, found, channel)?;
    }
    Ok(())
}

fn is_zero(number: u64) -> bool
    ensures { result ≡ nat_eq number 0 }
{
    number == 0
}

/// The wanted are filled, where there are any.
fn fill_wanted(
    wanted: &mut Kept,
    index: &LogIndex,
    log: &mut LogReads<'_>,
    refills: u64,
    to: u64,
) -> Result<(), Memory>
    requires index { IndexesTo index.now log.old.entries to }
    requires nothing { HasNothing wanted.old.entries }
    requires none { refills ≡ 0 → wanted.old.entries ≡ [] }
    ensures keys { OnOk result (names_of wanted.new.entries ≡ names_of wanted.old.entries) }
    ensures full { OnOk result (AreFull (past log.old.entries to) wanted.new.entries) }
    ensures log { log.new.entries ≡ log.old.entries }
    ensures reads { log.new.reads ≤ log.old.reads + filling refills to }
{
    if is_zero(refills) {
        return Ok(());
    }
    fill(wanted, index, log, to)
}

/// Asks for channels by lists of what is in theirs after the entries up to a place. Out of memory nothing is
/// said of the lists.
fn ask(
    alloc: Global,
    lists: &mut Kept,
    index: &LogIndex,
    log: &mut LogReads<'_>,
    channels: &[ChannelName],
    to: u64,
) -> Result<Found, Memory>
    requires index { IndexesTo index.now log.old.entries to }
    requires lists { AreLists (past log.old.entries to) lists.old.entries }
    ensures cap { lists.new.cap ≡ lists.old.cap }
    ensures sequences { IfOk result (λ found. found.sequences.items
        ≡ sequences_of (listed_in (past log.old.entries to) channels.now)) }
    ensures refills { IfOk result (λ found. found.refills
        ≡ refills_of lists.old.cap channels.now (names_of lists.old.entries)) }
    ensures names { OnOk result (names_of lists.new.entries
        ≡ asked_after_all lists.old.cap channels.now (names_of lists.old.entries)) }
    ensures lists { OnOk result (AreLists (past log.old.entries to) lists.new.entries) }
    ensures log { log.new.entries ≡ log.old.entries }
    ensures reads { log.new.reads ≤ log.old.reads
        + filling (refills_of lists.old.cap channels.now (names_of lists.old.entries)) to }
{
    let mut wanted: Kept = LruCache::unbounded(alloc)?;
    let mut sequences = Vec::new(alloc);
    let refills = ask_each(
        alloc,
        lists,
        &mut wanted,
        &mut sequences,
        index,
        channels,
        to,
    )?;
    fill_wanted(&mut wanted, index, log, refills, to)?;
    take_each(lists, &mut wanted, &mut sequences, channels)?;
    drop(wanted);
    in_order(&mut sequences);
    Ok(Found { sequences, refills })
}

/// The same by lists that are asked for anew, each of which is filled.
fn ask_behind(
    alloc: Global,
    index: &LogIndex,
    log: &mut LogReads<'_>,
    channels: &[ChannelName],
    to: u64,
) -> Result<Found, Memory>
    requires index { IndexesTo index.now log.old.entries to }
    ensures sequences { IfOk result (λ found. found.sequences.items
        ≡ sequences_of (listed_in (past log.old.entries to) channels.now)) }
    ensures refills { IfOk result (λ found. found.refills ≡ length channels.now) }
    ensures log { log.new.entries ≡ log.old.entries }
    ensures reads { log.new.reads ≤ log.old.reads + filling (length channels.now) to }
{
    let mut none: Kept = LruCache::unbounded(alloc)?;
    let found = ask(alloc, &mut none, index, log, channels, to)?;
    drop(none);
    let Found {
        sequences,
        refills: _,
    } = found;
    Ok(Found {
        sequences,
        refills: channels.len() as u64,
    })
}

/// Whether lists of a place are behind another.
fn is_passed(place: u64, to: u64) -> bool
    ensures { result ≡ not (nat_le place to) }
{
    to < place
}

/// Asks for channels by lists of a place of the log, which are brought forward; where they are behind the other place
/// already, they stay as they are.
pub fn ask_from(
    alloc: Global,
    lists: &mut Kept,
    place: u64,
    index: &LogIndex,
    log: &mut LogReads<'_>,
    channels: &[ChannelName],
    to: u64,
) -> Result<Found, Memory>
    requires index { IndexesTo index.now log.old.entries to }
    requires lists { AreLists (past log.old.entries place) lists.old.entries }
    ensures cap { lists.new.cap ≡ lists.old.cap }
    ensures sequences { IfOk result (λ found. found.sequences.items
        ≡ sequences_of (listed_in (past log.old.entries to) channels.now)) }
    ensures refills { IfOk result (λ found. found.refills ≡ (if nat_le place to
        then refills_of lists.old.cap channels.now (names_of lists.old.entries)
        else length channels.now)) }
    ensures names { OnOk result (place ≤ to → names_of lists.new.entries
        ≡ asked_after_all lists.old.cap channels.now (names_of lists.old.entries)) }
    ensures lists { OnOk result (place ≤ to
        → AreLists (past log.old.entries to) lists.new.entries) }
    ensures behind { OnOk result (to < place → lists.new ≡ lists.old) }
    ensures log { log.new.entries ≡ log.old.entries }
    ensures reads { log.new.reads ≤ log.old.reads + passed log.old.entries place to
        + filling (if nat_le place to
        then refills_of lists.old.cap channels.now (names_of lists.old.entries)
        else length channels.now) to }
{
    if is_passed(place, to) {
        return ask_behind(alloc, index, log, channels, to);
    }
    bring_any(alloc, lists, index, log, place, to)?;
    ask(alloc, lists, index, log, channels, to)
}
