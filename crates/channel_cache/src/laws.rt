//! Laws of kept lists.

ghost use Rattle.std.specs.Prelude.{◌≡◌, ◌<◌, ℕ, List, [], reverse, take};
ghost use Rattle.sg_history.specs.declared.entries.Entry.{Entry};
ghost use Rattle.sg_history.specs.History.{Extends};
ghost use Rattle.channel_cache.specs.Asked.{asked_after_all, last_distinct};
ghost use Rattle.channel_cache.specs.Kept.{KeptLists};
ghost use Rattle.channel_cache.specs.Stands.{CachedOf, StandsFor};

use crate::caches::Caches;
use crate::lists::Lists;

/// Lists that stand for a log stand for each log that extends it.
pub fn extended(lists: &Lists)
    ensures { (earlier later : List Entry) → StandsFor lists.now earlier
        → Extends earlier later → StandsFor lists.now later }
{
    let _value = lists;
}

/// The same of lists with an index of their own.
pub fn extended_caches(caches: &Caches)
    ensures { (earlier later : List Entry) → CachedOf caches.now earlier
        → Extends earlier later → CachedOf caches.now later }
{
    let _value = caches;
}

/// Once channels were asked for in turn, the asked are the last distinct ones of them, at most so many.
pub fn asked()
    ensures { (most : ℕ) (channels : List (List ℕ)) → 0 < most
        → asked_after_all most channels [] ≡ take most (last_distinct (reverse channels)) }
{}
