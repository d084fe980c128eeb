//! The places of marks among those of their replacements.

ghost use Rattle.std.specs.Prelude.{◌≡◌, ◌≤◌, ◌&&◌, ℕ, Some, None, false, OnOk, OnErr, nat_eq, if◌then◌else◌};
ghost use Rattle.log_index.specs.Representation.{IsFree, IsLast, has_seq, is_seq, place_at, seq_place};

use crate::marks::Marked;
use std::alloc::AllocError;
use std::collections::BTreeMap;
use std::ops::Bound;

/// The places of marks: by the sequences of their revision's first write and of their replacement.
pub type MarkPlaces = BTreeMap<(u64, u64), u64>;

/// The last mark of a revision after one sequence and up to another, by its first write. Allocates
/// nothing.
pub fn last_place(places: &MarkPlaces, first: u64, after: u64, up_to: u64) -> Option<Marked>
    requires { after ≤ up_to }
    ensures { IsLast (place_at places.now first) after up_to result }
{
    let mut found = places.range((
        Bound::Excluded((first, after)),
        Bound::Included((first, up_to)),
    ));
    match found.next_back() {
        None => None,
        Some((key, mark)) => Some(Marked {
            sync: key.1,
            mark: *mark,
        }),
    }
}

/// Keeps the place of a mark, if its revision was written.
fn put_place(
    places: &mut MarkPlaces,
    first: Option<u64>,
    sync: u64,
    place: u64,
) -> Result<(), AllocError>
    ensures ok { OnOk result ((f s : ℕ) → place_at places.new f s
        ≡ (if nat_eq sync s && is_seq first f then Some place else place_at places.old f s)) }
    ensures err { OnErr result ((f s : ℕ) → place_at places.new f s ≡ place_at places.old f s) }
{
    if let Some(first) = first {
        places.insert((first, sync), place)?;
    }
    Ok(())
}

/// Takes away what is kept of a mark, if its revision was written. Allocates nothing.
fn remove_place(places: &mut MarkPlaces, first: Option<u64>, sync: u64)
    ensures { (f s : ℕ) → place_at places.new f s
        ≡ (if nat_eq sync s && is_seq first f then None else place_at places.old f s) }
{
    if let Some(first) = first {
        places.remove(&(first, sync));
    }
}

/// Takes away what is kept of marks. Allocates nothing.
fn remove_places(places: &mut MarkPlaces, firsts: &[Option<u64>], sync: u64)
    ensures { (f s : ℕ) → place_at places.new f s
        ≡ (if nat_eq sync s && has_seq firsts.now f then None else place_at places.old f s) }
{
    for first in firsts {
        remove_place(places, *first, sync);
    }
}

/// Keeps the places of marks, by the first writes of their revisions: of each revision that of its first
/// mark. Out of memory some may be kept.
fn put_some(places: &mut MarkPlaces, firsts: &[Option<u64>], sync: u64) -> Result<(), AllocError>
    ensures ok { OnOk result (IsFree places.old sync → (f s : ℕ) → place_at places.new f s
        ≡ (if nat_eq sync s then seq_place 0 firsts.now f else place_at places.old f s)) }
    ensures err { OnErr result ((f s : ℕ) → (nat_eq sync s && has_seq firsts.now f) ≡ false
        → place_at places.new f s ≡ place_at places.old f s) }
{
    let mut left = firsts.len();
    while left > 0 {
        left -= 1;
        put_place(places, firsts[left], sync, left as u64)?;
    }
    Ok(())
}

/// Keeps the places of a replacement's marks, by the first writes of their revisions: of each revision that
/// of its first mark. Out of memory it keeps none.
pub fn put_places(
    places: &mut MarkPlaces,
    firsts: &[Option<u64>],
    sync: u64,
) -> Result<(), AllocError>
    ensures ok { OnOk result (IsFree places.old sync → (f s : ℕ) → place_at places.new f s
        ≡ (if nat_eq sync s then seq_place 0 firsts.now f else place_at places.old f s)) }
    ensures err { OnErr result (IsFree places.old sync → (f s : ℕ)
        → place_at places.new f s ≡ place_at places.old f s) }
{
    match put_some(places, firsts, sync) {
        Ok(()) => Ok(()),
        Err(fault) => {
            remove_places(places, firsts, sync);
            Err(fault)
        }
    }
}
