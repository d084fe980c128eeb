//! Which mark of an entry is meant, and what stands there.

ghost use Rattle.std.specs.Prelude.{◌≡◌};
ghost use Rattle.std.specs.Option.{option_copied};
ghost use Rattle.sg_history.specs.History.{as_sync};
ghost use Rattle.log_index.specs.Marks as marks;

use crate::marks::Marked;
use sg_history::{Entry, Mark};

/// Whether this is the mark of this number of the entry of a sequence. Allocates nothing.
pub fn is_mark(marked: Option<Marked>, sync: u64, number: usize) -> bool
    ensures { result ≡ marks.is_mark marked sync number }
{
    match marked {
        None => false,
        Some(marked) => marked.sync == sync && marked.mark == number as u64,
    }
}

/// The mark at a place of an entry, counted from 0, if it has one there. Allocates nothing.
pub fn mark_in(entry: &Entry, place: u64) -> Option<&Mark>
    ensures { option_copied result ≡ marks.mark_in_place (as_sync entry.now) place }
{
    match entry.as_sync() {
        None => None,
        Some(replacement) => replacement.marks.as_slice().get(place as usize),
    }
}
