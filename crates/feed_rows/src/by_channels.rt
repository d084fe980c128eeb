//! Where it changed last whether documents in the same channels are shown, after one place up to another.

ghost use Rattle.std.specs.Prelude.{◌≡◌, ℕ, Bool, true, max, IfOk, OnOk, IfSome, Some};
ghost use Rattle.std.specs.BTreeMap.{get_by_text};
ghost use Rattle.feed_rows.specs.Lasting.{AreToSearch};
ghost use Rattle.feed_rows.specs.inner.Shown.{AreSwitches, IsLastSwitch, is_shown};
ghost use Rattle.feed_rows.specs.declared.shown.Viewer as shown;

use crate::shown::{Switch, Viewer, last_switch};
use sg_history::{ChannelName, Channels};
use std::alloc::{AllocError, Global};
use std::collections::BTreeMap;

/// The last place at which it changed whether documents in some channels are shown, if it did.
#[derive(Clone, Copy)]
pub struct Kept<'a> {
    pub channels: &'a [ChannelName],
    pub last: Option<Switch>,
}

/// What is kept of lists of channels, by their text.
#[derive(Drop)]
pub struct Switches<'a> {
    pub kept: BTreeMap<String, Kept<'a>>,
}

/// The last place after one at which it changed, given the last one after another one.
pub fn switch_after(last: Option<Switch>, place: u64) -> Option<Switch>
    ensures { (test : ℕ → Bool) (start to : ℕ) → IsLastSwitch test start to last
        → IsLastSwitch test (max place start) to result }
{
    match last {
        Some(switch) if switch.by > place => Some(switch),
        _ => None,
    }
}

fn are_same(one: &[ChannelName], other: &[ChannelName]) -> bool
    ensures { result ≡ true → one.now ≡ other.now }
{
    if one.len() != other.len() {
        return false;
    }
    for i in 0..one.len() {
        if !one[i].equals(&other[i]) {
            return false;
        }
    }
    true
}

/// The text by which a list of channels is looked up.
fn text_of(alloc: Global, channels: &[ChannelName]) -> Result<String, AllocError> {
    let mut text = String::new(alloc);
    for channel in channels {
        text.push_str(channel.as_str())?;
        text.push_str(",")?;
    }
    Ok(text)
}

/// What is kept of these channels, if their text was kept.
fn found<'a>(
    kept: &BTreeMap<String, Kept<'a>>,
    text: &str,
    channels: &[ChannelName],
) -> Option<Kept<'a>>
    ensures { IfSome result (λ k. (get_by_text kept.now text.now ≡ Some k)
        × (k.channels.now ≡ channels.now)) }
{
    let kept = kept.get(text).copied()?;
    if !are_same(kept.channels, channels) {
        return None;
    }
    Some(kept)
}

fn put<'a>(
    map: &mut BTreeMap<String, Kept<'a>>,
    text: String,
    kept: Kept<'a>,
) -> Result<(), AllocError>
    ensures { OnOk result ((viewer : shown.Viewer) (start to : ℕ)
        → AreSwitches viewer start to map.old
        → IsLastSwitch (is_shown viewer.periods.now viewer.filter.now kept.entry.channels.now)
        start to kept.entry.last → AreSwitches viewer start to map.new) }
{
    map.insert(text, kept)?;
    Ok(())
}

impl<'a> Switches<'a> {
    /// Nothing is kept. Allocates nothing.
    pub fn new(alloc: Global) -> Switches<'a>
        ensures { (viewer : shown.Viewer) (start to : ℕ)
            → AreSwitches viewer start to result.kept }
    {
        Switches {
            kept: BTreeMap::new(alloc),
        }
    }

    /// The last place, after the first and up to the last one of all that is kept, at which it changed whether a
    /// document in these channels is shown.
    pub fn last(
        &mut self,
        alloc: Global,
        viewer: &Viewer<'_>,
        channels: &'a Channels,
        start: u64,
        to: u64,
    ) -> Result<Option<Switch>, AllocError>
        requires to_search { AreToSearch viewer.now.periods.now }
        requires kept { AreSwitches viewer.now start to self.old.kept }
        ensures kept { OnOk result (AreSwitches viewer.now start to self.new.kept) }
        ensures last { IfOk result (λ last. IsLastSwitch (is_shown viewer.now.periods.now
            viewer.now.filter.now channels.now) start to last) }
    {
        let names = channels.as_slice();
        let text = text_of(alloc, names)?;
        if let Some(kept) = found(&self.kept, text.as_str(), names) {
            drop(text);
            return Ok(kept.last);
        }
        let last = last_switch(viewer, channels, start, to);
        let kept = Kept {
            channels: names,
            last,
        };
        put(&mut self.kept, text, kept)?;
        Ok(last)
    }
}
