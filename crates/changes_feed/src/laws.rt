//! Laws of what is kept for looks at feeds.

ghost use Rattle.std.specs.Prelude.{◌≡◌, ℕ, List};
ghost use Rattle.sg_history.specs.declared.entries.Entry.{Entry};
ghost use Rattle.sg_history.specs.History.{Extends};
ghost use Rattle.changes_feed.specs.Feeds.{FeedsStandFor};
ghost use Rattle.changes_feed.specs.Switches.{AreSwitches};

use crate::feeds::Feeds;

/// Feeds that stand for a log stand for each log that extends it.
pub fn extended(feeds: &Feeds)
    ensures { (earlier later : List Entry) → FeedsStandFor feeds.now earlier
        → Extends earlier later → FeedsStandFor feeds.now later }
{
    feeds.extended();
}

/// The channels that a user gained or lost in a segment are one list.
pub fn switches()
    ensures { (one other : List (List ℕ)) (entries : List Entry) (user : List ℕ) (start front : ℕ)
        → AreSwitches one entries user start front → AreSwitches other entries user start front
        → one ≡ other }
{}
