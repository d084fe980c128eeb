//! The effects of written revisions.

ghost use Rattle.std.specs.Prelude.{◌≡◌, ◌<◌, ◌≤◌, ℕ, None, reverse, option_map};
ghost use Rattle.std.specs.Option.{option_copied};
ghost use Rattle.sg_history.specs.Current.{recorded_effects, marked_effects};
ghost use Rattle.sg_history.specs.History.{as_sync, past};
ghost use Rattle.log_index.specs.Index.{Indexes};
ghost use Rattle.log_index.specs.Marks as marks;
ghost use Rattle.log_views.specs.At.{write_at};
ghost use Rattle.log_views.specs.States.{effects_at_write, effects_in, since_at_write, since_by};

use crate::at;
use crate::at::entry_at;
use log_index::{LogIndex, Marked, laws, mark_in};
use sg_history::{Channels, Entry, Grants, Mark, RoleGrants, Write};

/// The effects of a revision, and since when it has them: the sequence of its write, or of the
/// replaced sync function that they are from.
#[derive(Clone, Copy)]
pub struct EffectsOf<'a> {
    pub since: u64,
    pub channels: &'a Channels,
    pub grants: &'a Grants,
    pub roles: &'a RoleGrants,
}

/// The effects that a write recorded. Allocates nothing.
pub fn recorded(write: &Write, since: u64) -> EffectsOf<'_>
    ensures effects { effects_in result ≡ recorded_effects write.now }
    ensures since { result.since ≡ since }
{
    EffectsOf {
        since,
        channels: &write.channels,
        grants: &write.grants,
        roles: &write.roles,
    }
}

/// The effects that a mark says. Allocates nothing.
pub fn of_mark(mark: &Mark, since: u64) -> EffectsOf<'_>
    ensures effects { effects_in result ≡ marked_effects mark.now }
    ensures since { result.since ≡ since }
{
    EffectsOf {
        since,
        channels: &mark.channels,
        grants: &mark.grants,
        roles: &mark.roles,
    }
}

/// The mark that stands there, if one does.
fn mark_at<'a>(entries: &'a [Entry], marked: Marked) -> Option<&'a Mark>
    ensures { option_copied result ≡ marks.mark_at (reverse entries.now) marked }
{
    if marked.sync == 0 {
        return None;
    }
    match entry_at(entries, marked.sync) {
        None => None,
        Some(entry) => mark_in(entry, marked.mark),
    }
}

/// The effects of a write's revision, by where they stand.
pub fn effects_of<'a>(
    entries: &'a [Entry],
    seq: u64,
    write: &'a Write,
    marked: Option<Marked>,
) -> EffectsOf<'a>
    ensures effects { effects_in result
        ≡ marks.effects_by (reverse entries.now) marked write.now }
    ensures since { result.since ≡ since_by marked seq }
{
    match marked {
        None => recorded(write, seq),
        Some(marked) => match mark_at(entries, marked) {
            None => recorded(write, marked.sync),
            Some(mark) => of_mark(mark, marked.sync),
        },
    }
}

/// The effects of the revision written at a sequence, by where they stand, if the entry of that sequence is a
/// write. Allocates nothing.
pub fn effects_by<'a>(
    entries: &'a [Entry],
    write: u64,
    marked: Option<Marked>,
) -> Option<EffectsOf<'a>>
    ensures effects { option_map effects_in result
        ≡ option_map (marks.effects_by (reverse entries.now) marked) (write_at entries.now write) }
    ensures since { option_map (λ e. e.since) result
        ≡ option_map (λ w. since_by marked write) (write_at entries.now write) }
{
    let written = at::write_at(entries, write)?;
    Some(effects_of(entries, write, written, marked))
}

/// The effects that the revision written at a sequence has after the entries up to a place, if the
/// entry of that sequence is a write. The index may have more entries than these. Allocates nothing.
pub fn effects_at<'a>(
    index: &LogIndex,
    entries: &'a [Entry],
    write: u64,
    up_to: u64,
) -> Option<EffectsOf<'a>>
    requires { (n : ℕ) × Indexes index.now (past entries.now n) × (up_to ≤ n) }
    ensures effects { 0 < write → option_map effects_in result
        ≡ effects_at_write (past entries.now up_to) write (write_at entries.now write) }
    ensures since { 0 < write → option_map (λ e. e.since) result
        ≡ since_at_write (past entries.now up_to) write (write_at entries.now write) }
    ensures none { write ≡ 0 → result ≡ None }
{
    if write == 0 {
        return None;
    }
    laws::marks();
    effects_by(entries, write, index.marked(write, up_to))
}
