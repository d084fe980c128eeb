//! What stands under names.

ghost use Rattle.std.specs.Prelude.{◌≡◌, [], ◌∷◌, ◌++◌, ◌-◌, ◌&&◌, IsTrue, length, option_map, slice_get, OnErr, OnOk};
ghost use Rattle.std.specs.Cmp.Lexicographic.{slice_cmp};
ghost use Rattle.std.specs.Ordering.{nat_cmp};
ghost use Rattle.sync_values.specs.Rising.{comes_behind, names_rise};
ghost use Rattle.sync_values.specs.Values.{last_named};

use crate::Memory;
use json_doc::DocText;
use sqlite_items::Items;
use std::alloc::Global;
use std::cmp::Ordering;
use std::marker::Model;

/// What stands under names, which contracts see as the list of both, in the order in which they were
/// pushed. Of two of one name the later counts. Where the names rise, one is found by halves.
#[derive(Drop)]
pub struct ByName<T> {
    items: Items<(DocText, T)>,
    rising: bool,
}

impl<T> Model for ByName<T> {
    ghost use Rattle.std.specs.Prelude.{◌≡◌, List, ℕ};
    ghost use Rattle.std.specs.Coded.{coded_list, coded_ℕ, coded×};
    ghost use Rattle.sync_values.specs.Rising.{names_rise};

    ghost Value = { List (List ℕ × T) };

    ghost coded = { coded_list (coded× (coded_list coded_ℕ) T.code) };

    ghost view = { λ b. b.items };

    ghost invariant = { λ b. b.rising ≡ names_rise b.items };
}

/// The order of what stands under a name and another name, by their bytes.
fn order_to<T>(member: &(DocText, T), name: &str) -> Ordering
    ensures { result ≡ slice_cmp nat_cmp member.now.0 name.now }
{
    member.0.as_str().as_bytes().cmp(name.as_bytes())
}

/// Whether a name comes behind that of the last of these.
fn is_behind<T>(members: &[(DocText, T)], name: &str) -> bool
    ensures { result ≡ comes_behind (slice_get members.now (length members.now - 1)) name.now }
{
    match members.last() {
        Some(last) => order_to(last, name).is_lt(),
        None => true,
    }
}

/// Whether names still rise where one more comes behind these.
fn still_rise<T>(rising: bool, members: &[(DocText, T)], name: &str) -> bool
    ensures { result ≡ (rising
        && comes_behind (slice_get members.now (length members.now - 1)) name.now) }
{
    rising && is_behind(members, name)
}

/// What stands last under a name.
#[tactic(auto, unfolding(crate::specs::Values::last_named))]
pub fn last_named<'m, T>(name: &str, members: &'m [(DocText, T)]) -> Option<&'m T>
    ensures { option_map (λ x. x.now) result ≡ last_named name.now members.now }
{
    let mut found = None;
    let mut left = members;
    while let [member, rest @ ..] = left {
        if name == member.0.as_str() {
            found = Some(&member.1);
        }
        left = rest;
    }
    found
}

/// What stands under a name, where names rise.
fn by_halves<'m, T>(name: &str, members: &'m [(DocText, T)]) -> Option<&'m T>
    requires { IsTrue (names_rise members.now) }
    ensures { option_map (λ x. x.now) result ≡ last_named name.now members.now }
{
    match members.binary_search_by(|member| order_to(member, name)) {
        Ok(at) => Some(&members[at].1),
        Err(_) => None,
    }
}

impl<T> ByName<T> {
    /// None yet.
    pub fn new(alloc: Global) -> ByName<T>
        ensures { result ≡ [] }
    {
        ByName {
            items: Items::new(alloc),
            rising: true,
        }
    }

    /// What stands last under a name.
    pub fn last(&self, name: &str) -> Option<&T>
        ensures { option_map (λ x. x.now) result ≡ last_named name.now self.now }
    {
        if self.rising {
            by_halves(name, self.items.as_slice())
        } else {
            last_named(name, self.items.as_slice())
        }
    }
}

impl<T: Drop> ByName<T> {
    /// One more.
    pub fn push(&mut self, name: DocText, value: T) -> Result<(), Memory>
        ensures ok { OnOk result (self.new ≡ self.old ++ (name, value) ∷ []) }
        ensures err { OnErr result (self.new ≡ self.old) }
    {
        let rising = still_rise(self.rising, self.items.as_slice(), name.as_str());
        self.items.push((name, value))?;
        self.rising = rising;
        Ok(())
    }
}
