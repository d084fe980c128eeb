//! What all users and roles have or had.

ghost use Rattle.std.specs.Prelude.{◌≡◌, ◌<◌, ◌≤◌, ◌+◌, ◌-◌, ℕ, List, false, IfOk, OnOk, OnErr};
ghost use Rattle.grant_tracks.specs.Dated.{Dated};
ghost use Rattle.std.specs.BTreeMap.{get_by_text};
ghost use Rattle.sg_history.specs.History.{among};
ghost use Rattle.sg_names.specs.declared.grants.Grantee.TheVariants.{User};
ghost use Rattle.grant_tracks.specs.declared.things.What.TheVariants as what;
ghost use Rattle.log_views.specs.Sorted.{AreSorted};
ghost use Rattle.grant_history.specs.AppliedLog.{changed_at};
ghost use Rattle.grant_history.specs.Periods.{AreAllPeriods};
ghost use Rattle.grant_tracks.specs.Changed.{IsSettled};
ghost use Rattle.grant_tracks.specs.Reads.{user_channel, user_role};
ghost use Rattle.grant_history.specs.Facts.{fact, times};
ghost use Rattle.grant_history.specs.Store.{count_at, has_at, last_changes, IsStore, more_at, less_at};

use crate::facts::Fact;
use crate::periods::{Period, periods_of};
use grant_tracks::{Holders, What, changed_of, channels_of, holders, roles_of};
use sg_history::{ChannelName, Grantee, Name};
use sg_outside::Memory;
use std::alloc::{AllocError, Global};
use std::collections::BTreeMap;

/// What users and roles have or had.
#[derive(Drop)]
pub struct Store {
    users: Holders,
    roles: Holders,
}

/// Notes a place behind the others where there is room for it. Allocates nothing.
fn note_place(places: &mut Vec<usize>, place: usize) {
    if places.len() < places.capacity() {
        places.push_reserved(place);
    }
}

/// The place that was noted of the fact of this number, if one was.
fn place_at(places: &[usize], i: usize) -> usize {
    match places.get(i) {
        None => 0,
        Some(place) => *place,
    }
}

impl Store {
    /// Nothing. Allocates nothing.
    pub fn new(alloc: Global) -> Store
        ensures counts { (f : Fact) → count_at result f ≡ 0 }
        ensures held { (f : Fact) (k : ℕ) → has_at result f k ≡ false }
        ensures up_to { (n : ℕ) → IsStore result n }
    {
        Store {
            users: BTreeMap::new(alloc),
            roles: BTreeMap::new(alloc),
        }
    }

    /// One source more gives a fact from a place of the log on. Answers where it stands among what its
    /// user or role has or had.
    fn give(&mut self, alloc: Global, fact: &Fact, at: u64) -> Result<usize, Memory>
        requires { IsStore self.old at }
        ensures ok { OnOk result (Dated count_at has_at IsStore self.old self.new at
            (more_at (count_at self.old) fact.now)) }
        ensures err { OnErr result (Dated count_at has_at IsStore self.old self.new at
            (count_at self.old)) }
    {
        match &fact.of {
            Grantee::User(name) => {
                holders::give(alloc, &mut self.users, name.as_str(), &fact.what, at)
            }
            Grantee::Role(name) => {
                holders::give(alloc, &mut self.roles, name.as_str(), &fact.what, at)
            }
        }
    }

    /// One source that gave a fact does not from a place of the log on. It is looked for at `near` first.
    fn take(&mut self, alloc: Global, fact: &Fact, near: usize, at: u64)
        requires given { 0 < count_at self.old fact.now }
        requires up_to { IsStore self.old at }
        ensures { Dated count_at has_at IsStore self.old self.new at
            (less_at (count_at self.old) fact.now) }
    {
        match &fact.of {
            Grantee::User(name) => {
                holders::take(alloc, &mut self.users, name.as_str(), &fact.what, near, at);
            }
            Grantee::Role(name) => {
                holders::take(alloc, &mut self.roles, name.as_str(), &fact.what, near, at);
            }
        }
    }

    /// A source that gave these facts does not from a place on. Each is looked for first where it stood
    /// when it was given.
    pub fn take_all(&mut self, alloc: Global, facts: &[Fact], places: &[usize], at: u64)
        requires given { (f : Fact) → times facts.now f ≤ count_at self.old f }
        requires up_to { IsStore self.old at }
        ensures { Dated count_at has_at IsStore self.old self.new at
            (λ f. count_at self.old f - times facts.now f) }
    {
        for (i, fact) in facts.iter().enumerate() {
            self.take(alloc, fact, place_at(places, i), at);
        }
    }

    /// One source more gives these facts from a place on. Answers where each stands, as `take_all`
    /// takes it. Out of memory none gives more than before.
    pub fn give_all(&mut self, alloc: Global, facts: &[Fact], at: u64) -> Result<Vec<usize>, Memory>
        requires { IsStore self.old at }
        ensures ok { OnOk result (Dated count_at has_at IsStore self.old self.new at
            (λ f. count_at self.old f + times facts.now f)) }
        ensures err { OnErr result (Dated count_at has_at IsStore self.old self.new at
            (count_at self.old)) }
    {
        let mut places = Vec::with_capacity(alloc, facts.len())?;
        for (i, fact) in facts.iter().enumerate() {
            match self.give(alloc, fact, at) {
                Ok(place) => note_place(&mut places, place),
                Err(_) => {
                    self.take_all(alloc, &facts[..i], places.as_slice(), at);
                    return Err(AllocError);
                }
            }
        }
        Ok(places)
    }

    /// Whether a user exists at a place. Allocates nothing.
    pub fn user_exists(&self, user: &Name, k: u64) -> bool
        ensures { result ≡ has_at self.now (fact (User user.now) what.Exists) k }
    {
        holders::holds(&self.users, user.as_str(), &What::Exists, k)
    }

    /// The channels of a user at a place, none where it does not exist there.
    pub fn channels(&self, alloc: Global, user: &Name, k: u64) -> Result<Vec<ChannelName>, Memory>
        ensures sorted { IfOk result (λ list. AreSorted list.items) }
        ensures among { IfOk result (λ list. (x : List ℕ) → among list.items x ≡ user_channel
            self.now.roles (get_by_text self.now.users user.now) k x) }
    {
        channels_of(alloc, &self.users, &self.roles, user, k)
    }

    /// The roles of a user at a place, none where it does not exist there.
    pub fn roles(&self, alloc: Global, user: &Name, k: u64) -> Result<Vec<Name>, Memory>
        ensures sorted { IfOk result (λ list. AreSorted list.items) }
        ensures among { IfOk result (λ list. (x : List ℕ) → among list.items x ≡ user_role
            self.now.roles (get_by_text self.now.users user.now) k x) }
    {
        roles_of(alloc, &self.users, &self.roles, user, k)
    }

    /// A place from which on a user has the same channels. Allocates nothing.
    pub fn changed(&self, user: &Name) -> u64
        ensures last { result ≡ changed_at (last_changes self.now) user.now }
        ensures settled { (x : List ℕ) → IsSettled result (λ k. user_channel
            self.now.roles (get_by_text self.now.users user.now) k x) }
        ensures within { (n : ℕ) → IsStore self.now n → result ≤ n }
    {
        changed_of(&self.users, &self.roles, user)
    }

    /// The periods in which a user has channels.
    pub fn periods(&self, alloc: Global, user: &Name) -> Result<Vec<Period>, Memory>
        ensures { IfOk result (λ list. AreAllPeriods list.items (λ c k. user_channel
            self.now.roles (get_by_text self.now.users user.now) k c)) }
    {
        periods_of(alloc, &self.users, &self.roles, user)
    }
}
