//! Names in their order, each once.

ghost use Rattle.std.specs.Prelude.{◌≡◌, ◌∷◌, ℕ, List, map};
ghost use Rattle.std.specs.List.{list_any};
ghost use Rattle.std.specs.List.Sorted.{IsPermutation, IsSortedByKey};
ghost use Rattle.std.specs.Ordering.{nat_cmp};
ghost use Rattle.std.specs.Cmp.Lexicographic.{slice_cmp};
ghost use Rattle.sg_history.specs.History.{among};
ghost use Rattle.sg_history.specs.View as view;
ghost use Rattle.log_views.specs.Sorted.{AreSorted};

use sg_history::{ChannelName, Name};
use std::cmp::Ordering;

/// What has a name by whose bytes it is ordered.
pub trait Named: Drop {
    ghost name: { Self → List ℕ };

    fn name_bytes(&self) -> &[u8]
        ensures { result.now ≡ name self.now };
}

impl Named for ChannelName {
    ghost name = { λ n. n };

    fn name_bytes(&self) -> &[u8] {
        self.as_bytes()
    }
}

impl<'a> Named for &'a ChannelName {
    ghost name = { λ n. n.now };

    fn name_bytes(&self) -> &[u8] {
        ChannelName::as_bytes(self)
    }
}

impl Named for Name {
    ghost name = { λ n. n };

    fn name_bytes(&self) -> &[u8] {
        self.as_bytes()
    }
}

impl<'a> Named for &'a str {
    ghost name = { λ n. n.now };

    fn name_bytes(&self) -> &[u8] {
        self.as_bytes()
    }
}

fn order<T: Named>(one: &T, other: &T) -> Ordering
    ensures { result ≡ slice_cmp nat_cmp (T.name one.now) (T.name other.now) }
{
    one.name_bytes().cmp(other.name_bytes())
}

fn order_to<T: Named>(one: &T, name: &[u8]) -> Ordering
    ensures { result ≡ slice_cmp nat_cmp (T.name one.now) name.now }
{
    one.name_bytes().cmp(name)
}

/// Sorts names: by merging what stands in order already, and in place where there is no memory for that.
fn sort<T: Named>(items: &mut Vec<T>)
    ensures permutation { IsPermutation items.old.items items.new.items }
    ensures sorted { IsSortedByKey T.name (slice_cmp nat_cmp) items.new.items }
{
    match items.sort_by(|a, b| order(a, b)) {
        Ok(()) => {}
        Err(_) => items.sort_unstable_by(|a, b| order(a, b)),
    }
}

/// Puts names in their order, each once.
pub fn in_order<T: Named>(items: Vec<T>) -> Vec<T>
    ensures among { (x : List ℕ) → among (map T.name result.items) x
        ≡ among (map T.name items.items) x }
    ensures sorted { AreSorted (map T.name result.items) }
{
    let mut items = items;
    sort(&mut items);
    items.dedup_by(|a, b| order(a, b).is_eq());
    items
}

/// Whether a name is one of these, which is found by halves. Allocates nothing.
pub fn has_name<T: Named>(names: &[T], name: &[u8]) -> bool
    requires { AreSorted (map T.name names.now) }
    ensures { result ≡ among (map T.name names.now) name.now }
{
    names.binary_search_by(|n| order_to(n, name)).is_ok()
}

fn has_one<T: Named>(names: &[T], channels: &[ChannelName]) -> bool
    requires { AreSorted (map T.name names.now) }
    ensures { result ≡ list_any (λ c. among (map T.name names.now) c) channels.now }
{
    for channel in channels {
        if has_name(names, channel.as_bytes()) {
            return true;
        }
    }
    false
}

/// Whether `*` or one of these channels is one of these names. Allocates nothing.
pub fn has_some<T: Named>(names: &[T], channels: &[ChannelName]) -> bool
    requires { AreSorted (map T.name names.now) }
    ensures { result ≡ list_any (λ c. among (map T.name names.now) c)
        (view.every ∷ channels.now) }
{
    has_name(names, b"*") || has_one(names, channels)
}
