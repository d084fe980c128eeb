//! What one user or role has or had.

ghost use Rattle.std.specs.Prelude.{◌≡◌, ◌<◌, ◌≤◌, ◌&&◌, ◌||◌, ◌++◌, ◌∷◌, [], ℕ, Bool, List, true, false, nat_eq, None, Some, MatchOption, IfOk, OnOk, OnErr};
ghost use Rattle.std.specs.BTreeMap.{get_by_text};
ghost use Rattle.std.specs.List.{list_any};
ghost use Rattle.std.specs.Option.{option_copied};
ghost use Rattle.grant_tracks.specs.declared.things.What.TheVariants as what;
ghost use Rattle.grant_tracks.specs.Dated.{Dated};
ghost use Rattle.grant_tracks.specs.Holdings.{place_of, count_in, held_in, AreUpTo, one_more, one_less};
ghost use Rattle.grant_tracks.specs.Listed.{is_in};
ghost use Rattle.grant_tracks.specs.inner.Passing.{fits, given_in, is_given_at, passes_at};
ghost use Rattle.grant_tracks.specs.Reads.{channel_among};
ghost use Rattle.grant_tracks.specs.declared.held.Held.{Held};
ghost use Rattle.grant_tracks.specs.Tracks.{BeginsAt, held_at};
ghost use Rattle.grant_tracks.specs.Ways.{track_has};

use crate::blocks::Blocks;
use crate::places::{ByName, Places};
use crate::things::What;
use crate::track::Track;
use crate::ways::ChannelTracks;
use sg_history::ChannelName;
use sg_outside::Memory;
use std::alloc::Global;
use std::marker::Model;

/// One thing, and when it is held.
#[derive(Drop)]
pub struct Held {
    pub what: What,
    pub track: Track,
}

/// What one user or role has or had, each thing once.
#[derive(Drop)]
pub struct Holding {
    list: Vec<Held>,
    places: Places,
    blocks: Blocks,
    changed: u64,
}

impl Model for Holding {
    ghost use Rattle.std.specs.Prelude.{◌≡◌, length, vec_len};
    ghost use Rattle.grant_tracks.specs.HeldLists.{AreUpTo};
    ghost use Rattle.grant_tracks.specs.Things.{Things};
    ghost use Rattle.grant_tracks.specs.Near.{MissNothing};
    ghost use Rattle.grant_tracks.specs.Places.{ArePlaces, StandOnce};

    ghost Value = { Things };

    ghost view = { λ h. record {
      items = h.list.items;
      since = h.blocks.from;
      changed = h.changed;
    } };

    ghost invariant = { λ h. ArePlaces h.places h.list.items × StandOnce h.list.items
        × (vec_len h.list ≡ length h.list.items) × MissNothing h.list.items h.blocks
        × AreUpTo h.list.items h.changed };
}

/// One thing that begins to be held at a place.
fn held_from(alloc: Global, what: &What, at: u64) -> Result<Held, Memory>
    ensures what { IfOk result (λ h. h.what ≡ what.now) }
    ensures track { IfOk result (λ h. BeginsAt h.track at) }
{
    let track = Track::begun(alloc, at)?;
    let what = what.copy(alloc)?;
    Ok(Held { what, track })
}

/// Whether a source gives the thing that stands at a place of a list.
fn is_given(all: &[Held], i: usize) -> bool
    ensures { result ≡ is_given_at all.now i }
{
    match all.get(i) {
        None => false,
        Some(held) => held.track.is_given(),
    }
}

/// Puts where something stands behind others, if a source gives it.
fn add_given(given: &mut Vec<usize>, all: &[Held], i: usize) -> Result<(), Memory>
    ensures { OnOk result ((x : ℕ) → is_in given.new.items x
        ≡ (is_in given.old.items x || (nat_eq x i && is_given_at all.now i))) }
{
    if !is_given(all, i) {
        return Ok(());
    }
    given.push(i)?;
    Ok(())
}

/// Those of some things that a source gives, each by where it stands.
fn given_of(alloc: Global, all: &[Held], list: &[usize]) -> Result<Vec<usize>, Memory>
    ensures { IfOk result (λ given. (x : ℕ)
        → is_in given.items x ≡ given_in all.now list.now x) }
{
    let mut given = Vec::new(alloc);
    for i in list {
        add_given(&mut given, all, *i)?;
    }
    Ok(given)
}

/// What stands at a place of a list, where it is held at a place of the log.
fn held_one(all: &[Held], i: usize, k: u64) -> Option<&Held>
    ensures { (test : Held → Bool) → fits test (option_copied result)
        ≡ passes_at all.now k test i }
{
    match all.get(i) {
        None => None,
        Some(one) => {
            if one.track.holds(k) {
                return Some(one);
            }
            None
        }
    }
}

/// Puts what stands at a place of a list behind others, if it is held at a place of the log.
fn add_held<'a>(held: &mut Vec<&'a Held>, all: &'a [Held], i: usize, k: u64) -> Result<(), Memory>
    ensures { OnOk result ((test : Held → Bool) → list_any (λ h. test h.now) held.new.items
        ≡ (list_any (λ h. test h.now) held.old.items || passes_at all.now k test i)) }
{
    match held_one(all, i, k) {
        None => Ok(()),
        Some(one) => {
            held.push(one)?;
            Ok(())
        }
    }
}

/// Those of some things that are held at a place.
fn held_of<'a>(
    alloc: Global,
    all: &'a [Held],
    list: &[usize],
    k: u64,
) -> Result<Vec<&'a Held>, Memory>
    ensures { IfOk result (λ held. (test : Held → Bool) → list_any (λ h. test h.now) held.items
        ≡ list_any (passes_at all.now k test) list.now) }
{
    let mut held = Vec::new(alloc);
    for i in list {
        add_held(&mut held, all, *i, k)?;
    }
    Ok(held)
}

impl Holding {
    /// Nothing. Allocates nothing.
    pub(crate) fn new(alloc: Global) -> Holding
        ensures items { result.items ≡ [] }
        ensures since { result.since ≡ 0 }
        ensures changed { result.changed ≡ 0 }
    {
        Holding {
            list: Vec::new(alloc),
            places: Places::new(alloc),
            blocks: Blocks::new(alloc),
            changed: 0,
        }
    }

    /// The place at which a source gave or took something last, 0 where none ever did.
    pub(crate) fn changed(&self) -> u64
        ensures value { result ≡ self.now.changed }
        ensures up_to { AreUpTo self.now.items result }
    {
        self.changed
    }

    /// The things that are held at a place.
    pub(crate) fn held(&self, alloc: Global, k: u64) -> Result<Vec<&Held>, Memory>
        ensures { IfOk result (λ held. (test : Held → Bool) → list_any (λ h. test h.now) held.items
            ≡ list_any (λ h. held_at h.track k && test h) self.now.items) }
    {
        held_of(alloc, self.list.as_slice(), self.blocks.at(k), k)
    }

    /// All that is or was held.
    pub fn all(&self) -> &[Held]
        ensures { result.now ≡ self.now.items }
    {
        self.list.as_slice()
    }

    /// Where each role stands among all that is or was held, by its name.
    pub(crate) fn roles(&self) -> &ByName
        ensures { (role : List ℕ) → get_by_text result.now role
            ≡ place_of self.now.items (what.Role role) }
    {
        self.places.roles()
    }

    /// When something is held, if it ever was.
    fn track(&self, what: &What) -> Option<&Track>
        ensures { MatchOption result ((k : ℕ) → held_in self.now.items what.now k ≡ false)
            (λ t. (k : ℕ) → held_in self.now.items what.now k ≡ held_at t.now k) }
    {
        match self.places.find(what) {
            None => None,
            Some(i) => Some(&self.list[i].track),
        }
    }

    /// When a channel is held, if it ever was.
    fn channel_track(&self, channel: &ChannelName) -> Option<&Track>
        ensures { MatchOption result ((k : ℕ) → channel_among self.now.items k channel.now ≡ false)
            (λ t. (k : ℕ) → channel_among self.now.items k channel.now ≡ held_at t.now k) }
    {
        match self.places.channel(channel) {
            None => None,
            Some(i) => Some(&self.list[i].track),
        }
    }

    /// Whether something is held at a place.
    pub(crate) fn holds(&self, what: &What, k: u64) -> bool
        ensures { result ≡ held_in self.now.items what.now k }
    {
        match self.track(what) {
            None => false,
            Some(track) => track.holds(k),
        }
    }

    /// When this exists, if it ever did.
    pub fn existence(&self) -> Option<&Track>
        ensures { (k : ℕ) → track_has result k ≡ held_in self.now.items what.Exists k }
    {
        self.track(&What::Exists)
    }

    /// When this exists, and when a channel is held.
    pub(crate) fn tracks_of(&self, channel: &ChannelName) -> ChannelTracks<'_>
        ensures exists { (k : ℕ) → track_has result.exists k
            ≡ held_in self.now.items what.Exists k }
        ensures channel { (k : ℕ) → track_has result.channel k
            ≡ channel_among self.now.items k channel.now }
    {
        ChannelTracks {
            exists: self.existence(),
            channel: self.channel_track(channel),
        }
    }

    /// Begins a block at a place, where much changed since the last one began.
    fn make_block(&mut self, alloc: Global, at: u64)
        requires up_to { AreUpTo self.old.items at }
        requires since { self.old.since ≤ at }
        ensures items { self.new.items ≡ self.old.items }
        ensures since { self.new.since ≤ at }
        ensures changed { self.new.changed ≡ self.old.changed }
    {
        if self.blocks.is_full() {
            if let Ok(given) = given_of(alloc, self.list.as_slice(), self.blocks.last()) {
                self.blocks.begin(at, given);
            }
        }
    }

    /// Something changes at a place: keeps that, and begins a block there, where much changed since the
    /// last one began.
    fn change_at(&mut self, alloc: Global, at: u64)
        requires up_to { AreUpTo self.old.items at }
        requires since { self.old.since ≤ at }
        ensures items { self.new.items ≡ self.old.items }
        ensures since { self.new.since ≤ at }
        ensures changed { self.new.changed ≡ at }
    {
        self.make_block(alloc, at);
        self.changed = at;
    }

    /// Keeps one thing more, and answers a place at which `take` looks first; no clause says that it is there.
    fn keep(&mut self, alloc: Global, held: Held, at: u64) -> Result<usize, Memory>
        requires place { place_of self.old.items held.what ≡ None }
        requires since { self.old.since ≤ at }
        requires changed { self.old.changed ≡ at }
        requires begins { BeginsAt held.track at }
        ensures ok { OnOk result (self.new.items ≡ self.old.items ++ held ∷ []) }
        ensures err { OnErr result (self.new.items ≡ self.old.items) }
        ensures since { self.new.since ≡ self.old.since }
        ensures changed { self.new.changed ≡ self.old.changed }
    {
        let place = self.list.len();
        self.list.reserve(1)?;
        self.blocks.add(place)?;
        self.places.put(alloc, &held.what, place)?;
        self.list.push_reserved(held);
        Ok(place)
    }

    fn add(&mut self, alloc: Global, what: &What, at: u64) -> Result<usize, Memory>
        requires place { place_of self.old.items what.now ≡ None }
        requires since { self.old.since ≤ at }
        requires changed { self.old.changed ≡ at }
        ensures ok { OnOk result (Dated count_in held_in AreUpTo self.old.items self.new.items at
            (one_more (count_in self.old.items) what.now)) }
        ensures err { OnErr result (self.new.items ≡ self.old.items) }
        ensures since { self.new.since ≡ self.old.since }
        ensures changed { self.new.changed ≡ self.old.changed }
    {
        let held = held_from(alloc, what, at)?;
        self.keep(alloc, held, at)
    }

    /// One source more gives what stands at a place of the list, which another one gives.
    fn give_more(&mut self, i: usize, what: &What, at: u64) -> Result<(), Memory>
        requires place { place_of self.old.items what.now ≡ Some i }
        requires given { 0 < count_in self.old.items what.now }
        requires up_to { AreUpTo self.old.items at }
        requires changed { self.old.changed ≡ at }
        ensures ok { OnOk result (Dated count_in held_in AreUpTo self.old.items self.new.items at
            (one_more (count_in self.old.items) what.now)) }
        ensures err { OnErr result (Dated count_in held_in AreUpTo self.old.items self.new.items at
            (count_in self.old.items)) }
        ensures since { self.new.since ≡ self.old.since }
        ensures changed { self.new.changed ≡ self.old.changed }
    {
        self.list[i].track.give(at)
    }

    /// One source gives what stands at a place of the list.
    fn give_first(&mut self, i: usize, what: &What, at: u64) -> Result<(), Memory>
        requires place { place_of self.old.items what.now ≡ Some i }
        requires up_to { AreUpTo self.old.items at }
        requires changed { self.old.changed ≡ at }
        requires since { self.old.since ≤ at }
        ensures ok { OnOk result (Dated count_in held_in AreUpTo self.old.items self.new.items at
            (one_more (count_in self.old.items) what.now)) }
        ensures err { OnErr result (Dated count_in held_in AreUpTo self.old.items self.new.items at
            (count_in self.old.items)) }
        ensures since { self.new.since ≡ self.old.since }
        ensures changed { self.new.changed ≡ self.old.changed }
    {
        self.blocks.add(i)?;
        self.list[i].track.give(at)
    }

    /// Whether a source gives what stands at a place of the list.
    fn gives(&self, i: usize, what: &What) -> bool
        requires { place_of self.now.items what.now ≡ Some i }
        ensures { result ≡ true → 0 < count_in self.now.items what.now }
    {
        self.list[i].track.is_given()
    }

    /// One source more gives what stands at a place of the list.
    fn give_at(&mut self, i: usize, what: &What, at: u64) -> Result<(), Memory>
        requires place { place_of self.old.items what.now ≡ Some i }
        requires up_to { AreUpTo self.old.items at }
        requires changed { self.old.changed ≡ at }
        requires since { self.old.since ≤ at }
        ensures ok { OnOk result (Dated count_in held_in AreUpTo self.old.items self.new.items at
            (one_more (count_in self.old.items) what.now)) }
        ensures err { OnErr result (Dated count_in held_in AreUpTo self.old.items self.new.items at
            (count_in self.old.items)) }
        ensures since { self.new.since ≡ self.old.since }
        ensures changed { self.new.changed ≡ self.old.changed }
    {
        if self.gives(i, what) {
            return self.give_more(i, what, at);
        }
        self.give_first(i, what, at)
    }

    /// One source more gives it from a place of the log on. Answers a place at which `take` looks first; no
    /// clause says that it is there.
    pub(crate) fn give(&mut self, alloc: Global, what: &What, at: u64) -> Result<usize, Memory>
        requires up_to { AreUpTo self.old.items at }
        requires since { self.old.since ≤ at }
        ensures ok { OnOk result (Dated count_in held_in AreUpTo self.old.items self.new.items at
            (one_more (count_in self.old.items) what.now)) }
        ensures err { OnErr result (Dated count_in held_in AreUpTo self.old.items self.new.items at
            (count_in self.old.items)) }
        ensures since { self.new.since ≤ at }
        ensures changed { self.new.changed ≡ at }
    {
        self.change_at(alloc, at);
        match self.places.find(what) {
            None => self.add(alloc, what, at),
            Some(i) => {
                self.give_at(i, what, at)?;
                Ok(i)
            }
        }
    }

    /// One source that gave it does not from a place of the log on. It is looked for at `near` first,
    /// which is what `give` answered.
    pub(crate) fn take(&mut self, alloc: Global, what: &What, near: usize, at: u64)
        requires given { 0 < count_in self.old.items what.now }
        requires up_to { AreUpTo self.old.items at }
        requires since { self.old.since ≤ at }
        ensures dated { Dated count_in held_in AreUpTo self.old.items self.new.items at
            (one_less (count_in self.old.items) what.now) }
        ensures since { self.new.since ≤ at }
        ensures changed { self.new.changed ≡ at }
    {
        self.change_at(alloc, at);
        self.take_one(what, near, at);
    }

    /// Whether something stands at a place of the list.
    fn stands_at(&self, what: &What, near: usize) -> bool
        ensures { result ≡ true → place_of self.now.items what.now ≡ Some near }
    {
        match self.list.get(near) {
            None => false,
            Some(held) => held.what.equals(what),
        }
    }

    /// The place of something in the list, which may be this one.
    fn place_near(&self, what: &What, near: usize) -> Option<usize>
        ensures { result ≡ place_of self.now.items what.now }
    {
        if self.stands_at(what, near) {
            return Some(near);
        }
        self.places.find(what)
    }

    fn take_one(&mut self, what: &What, near: usize, at: u64)
        requires given { 0 < count_in self.old.items what.now }
        requires up_to { AreUpTo self.old.items at }
        requires changed { self.old.changed ≡ at }
        ensures dated { Dated count_in held_in AreUpTo self.old.items self.new.items at
            (one_less (count_in self.old.items) what.now) }
        ensures since { self.new.since ≡ self.old.since }
        ensures changed { self.new.changed ≡ self.old.changed }
    {
        if let Some(i) = self.place_near(what, near) {
            self.blocks.count();
            self.list[i].track.take(at);
        }
    }
}
