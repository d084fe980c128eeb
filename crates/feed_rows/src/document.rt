//! What the pass over the log keeps of a document.

ghost use Rattle.std.specs.Prelude.{◌≡◌, ◌<◌, ◌≤◌, ◌-◌, ◌∷◌, ◌&&◌, nat_eq, max, ℕ, List, Some, length, map, slice_set, is_some, IfOk, OnOk};
ghost use Rattle.sg_history.specs.declared.entries.Entry.{Entry};
ghost use Rattle.sg_history.specs.Current.{current};
ghost use Rattle.sg_history.specs.Feed.{row_of};
ghost use Rattle.sg_history.specs.View.{view};
ghost use Rattle.feed_rows.specs.Known.{from_on, known_from, known_in, row_in, there};
ghost use Rattle.feed_rows.specs.Latest.{current_in};
ghost use Rattle.feed_rows.specs.inner.Shown.{AreSwitches, IsLastSwitch, is_shown};
ghost use Rattle.feed_rows.specs.declared.shown.Viewer as shown;
ghost use Rattle.feed_rows.specs.PassAt.{IsKnown, IsRenewed, IsViewer};
ghost use Rattle.feed_rows.specs.Lasting.{AreToSearch};

use crate::by_channels::{Switches, switch_after};
use crate::shown::{Switch, Viewer, last_switch, lasting_shown};
use log_views::EffectsOf;
use sg_history::laws::currents;
use sg_history::{DocId, Write};
use std::alloc::{AllocError, Global};

/// A document's winner with its effects, the sequence of the document's last write, and the place from which on the
/// document is that: the one of this write, or of a later mark of the winner.
#[derive(Clone, Copy)]
pub struct Latest<'a> {
    pub seq: u64,
    pub since: u64,
    pub write: &'a Write,
    pub effects: EffectsOf<'a>,
}

/// The last change of what is shown of a document: at which place, the sequence of its last write there and its winner,
/// whether it was shown from then on, and whether the entry there wrote it.
#[derive(Clone, Copy)]
pub struct Change<'a> {
    pub by: u64,
    pub seq: u64,
    pub winner: &'a Write,
    pub is_shown: bool,
    pub wrote: bool,
}

/// A document: what it is, and its last change up to the place from which on it is that.
#[derive(Clone, Copy)]
pub struct Document<'a> {
    pub name: &'a DocId,
    pub latest: Option<Latest<'a>>,
    pub change: Option<Change<'a>>,
}

/// The last change of a document from a place on, given that up to where it was last renewed, and where it changed last
/// since then, from that place on, whether it is shown.
fn change_by_switch<'a>(
    latest: Latest<'a>,
    change: Option<Change<'a>>,
    switch: Option<Switch>,
) -> Option<Change<'a>>
    ensures { (viewer : shown.Viewer) (from : ℕ) (es : List Entry) (doc : List ℕ)
        → IsKnown viewer from es doc (Some latest.entry) change.entry
        → IsLastSwitch (is_shown viewer.periods.now viewer.filter.now
        latest.entry.effects.channels.now) (max latest.entry.since (from - 1)) (length es) switch
        → row_in doc result
        ≡ from_on from (row_of es viewer.user.now viewer.filter.now doc) }
{
    currents();
    match switch {
        None => change,
        Some(switch) => Some(Change {
            by: switch.by,
            seq: latest.seq,
            winner: latest.write,
            is_shown: switch.is_shown,
            wrote: false,
        }),
    }
}

/// The last change of a document from one place up to another, given that up to where it was last renewed.
fn change_up_to<'a>(
    viewer: &Viewer<'_>,
    latest: Option<Latest<'a>>,
    change: Option<Change<'a>>,
    from: u64,
    to: u64,
) -> Option<Change<'a>>
    requires { AreToSearch viewer.now.periods.now }
    ensures { (es : List Entry) (doc : List ℕ) → to ≡ length es
        → IsKnown viewer.now from es doc latest.entry change.entry
        → row_in doc result
        ≡ from_on from (row_of es viewer.now.user.now viewer.now.filter.now doc) }
{
    currents();
    match latest {
        None => change,
        Some(latest) => {
            let start = latest.since.max(from.saturating_sub(1));
            let switch = last_switch(viewer, latest.effects.channels, start, to);
            change_by_switch(latest, change, switch)
        }
    }
}

/// The last change of a document from one place up to another, by what is kept of documents in the same channels.
pub fn change_at<'a>(
    alloc: Global,
    viewer: &Viewer<'_>,
    switches: &mut Switches<'a>,
    document: Document<'a>,
    from: u64,
    to: u64,
) -> Result<Option<Change<'a>>, AllocError>
    requires to_search { AreToSearch viewer.now.periods.now }
    requires kept { AreSwitches viewer.now (from - 1) to switches.old.kept }
    ensures kept { OnOk result (AreSwitches viewer.now (from - 1) to switches.new.kept) }
    ensures change { IfOk result (λ change. (es : List Entry) (doc : List ℕ) → to ≡ length es
        → IsKnown viewer.now from es doc document.entry.latest document.entry.change
        → row_in doc change
        ≡ from_on from (row_of es viewer.now.user.now viewer.now.filter.now doc)) }
{
    currents();
    let Some(latest) = document.latest else {
        return Ok(document.change);
    };
    let start = from.saturating_sub(1);
    let last = switches.last(alloc, viewer, latest.effects.channels, start, to)?;
    let switch = switch_after(last, latest.since);
    Ok(change_by_switch(latest, document.change, switch))
}

/// Whether a document was shown at a place.
pub fn was_shown(viewer: &Viewer<'_>, latest: Option<Latest<'_>>, k: u64) -> bool
    requires { AreToSearch viewer.now.periods.now }
    ensures { (es : List Entry) (doc : List ℕ) → k ≡ length es → IsViewer viewer.now es
        → current_in latest.entry ≡ current es doc
        → result ≡ is_some (view es viewer.now.user.now viewer.now.filter.now doc) }
{
    match latest {
        None => false,
        Some(latest) => lasting_shown(viewer, latest.effects.channels, k).holds,
    }
}

/// Whether a document is shown by the entry that renewed it last, after which it is this, and this entry wrote it.
pub fn shows_write(latest: Latest<'_>, is_shown: bool) -> bool
    ensures { result ≡ (nat_eq latest.entry.seq latest.entry.since && is_shown) }
{
    latest.seq == latest.since && is_shown
}

/// The last change of a document, from a place on, up to an entry that renews it, after which it is this.
fn change_by_renewal<'a>(
    viewer: &Viewer<'_>,
    before: Option<Latest<'a>>,
    change: Option<Change<'a>>,
    from: u64,
    latest: Latest<'a>,
) -> Option<Change<'a>>
    requires to_search { AreToSearch viewer.now.periods.now }
    requires since { 0 < latest.since }
    requires from { from ≤ latest.since }
    ensures { (e : Entry) (es : List Entry) (doc : List ℕ)
        → IsRenewed viewer.now e es doc latest.entry
        → IsKnown viewer.now from es doc before.entry change.entry
        → row_in doc result
        ≡ from_on from (row_of (e ∷ es) viewer.now.user.now viewer.now.filter.now doc) }
{
    currents();
    let is_shown = lasting_shown(viewer, latest.effects.channels, latest.since).holds;
    let changed = Change {
        by: latest.since,
        seq: latest.seq,
        winner: latest.write,
        is_shown,
        wrote: latest.seq == latest.since,
    };
    if shows_write(latest, is_shown) {
        return Some(changed);
    }
    if is_shown != was_shown(viewer, before, latest.since - 1) {
        return Some(changed);
    }
    change_up_to(viewer, before, change, from, latest.since - 1)
}

/// Brings a document up to an entry that renews it, after which it is this.
fn bring_up<'a>(viewer: &Viewer<'_>, document: &mut Document<'a>, from: u64, latest: Latest<'a>)
    requires to_search { AreToSearch viewer.now.periods.now }
    requires since { 0 < latest.since }
    requires from { from ≤ latest.since }
    ensures { (e : Entry) (es : List Entry) (doc : List ℕ)
        → IsRenewed viewer.now e es doc latest.entry
        → known_in document.old
        ≡ known_from from es viewer.now.user.now viewer.now.filter.now doc
        → known_in document.new
        ≡ known_from from (e ∷ es) viewer.now.user.now viewer.now.filter.now doc }
{
    document.change = change_by_renewal(viewer, document.latest, document.change, from, latest);
    document.latest = Some(latest);
}

/// Brings the document in this place, of whose changes those from a place of the log on are known, up to an entry that
/// renews it, after which it is this.
pub fn bring_up_at<'a>(
    viewer: &Viewer<'_>,
    documents: &mut Vec<Document<'a>>,
    place: usize,
    from: u64,
    latest: Latest<'a>,
)
    requires to_search { AreToSearch viewer.now.periods.now }
    requires since { 0 < latest.since }
    requires from { from ≤ latest.since }
    requires within { place < length documents.old.items }
    ensures { (e : Entry) (es : List Entry) (doc : List ℕ)
        → IsRenewed viewer.now e es doc latest.entry
        → there place (map known_in documents.old.items)
        ≡ known_from from es viewer.now.user.now viewer.now.filter.now doc
        → map known_in documents.new.items ≡ slice_set (map known_in documents.old.items) place
        (known_from from (e ∷ es) viewer.now.user.now viewer.now.filter.now doc) }
{
    bring_up(viewer, &mut documents[place], from, latest);
}
