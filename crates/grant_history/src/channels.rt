//! The channels that a user may ever have had.

ghost use Rattle.std.specs.Prelude.{◌≡◌, ◌||◌, ◌++◌, ◌∷◌, [], ℕ, List, IfOk, OnOk};
ghost use Rattle.std.specs.Str.{bytes_eq};
ghost use Rattle.sg_history.specs.History.{among};
ghost use Rattle.sg_history.specs.Principals as principals;
ghost use Rattle.log_views.specs.Sorted.{AreSorted};
ghost use Rattle.grant_history.specs.Periods.{ever_among, ever_by, ever_by_roles, ever_gives, may_have, names_of};
ghost use Rattle.grant_tracks.specs.Reads.{is_channel};
ghost use Rattle.std.specs.BTreeMap.{get_by_text};

use grant_tracks::{Held, Holders, What};
use log_views::in_order;
use sg_history::{ChannelName, Name};
use sg_outside::Memory;
use std::alloc::Global;

fn add_channel<'a>(list: &mut Vec<&'a ChannelName>, channel: &'a ChannelName) -> Result<(), Memory>
    ensures among { OnOk result ((x : List ℕ) → among (names_of list.new.items) x
        ≡ (bytes_eq channel.now x || among (names_of list.old.items) x)) }
{
    list.push(channel)?;
    Ok(())
}

fn add_if_channel<'a>(list: &mut Vec<&'a ChannelName>, what: &'a What) -> Result<(), Memory>
    ensures among { OnOk result ((x : List ℕ) → among (names_of list.new.items) x
        ≡ (is_channel what.now x || among (names_of list.old.items) x)) }
{
    match what {
        What::Channel(channel) => add_channel(list, channel),
        _ => Ok(()),
    }
}

fn add_ever<'a>(list: &mut Vec<&'a ChannelName>, all: &'a [Held]) -> Result<(), Memory>
    ensures among { OnOk result ((x : List ℕ) → among (names_of list.new.items) x
        ≡ (ever_among all.now x || among (names_of list.old.items) x)) }
{
    for held in all {
        add_if_channel(list, &held.what)?;
    }
    Ok(())
}

fn add_of_role<'a>(
    list: &mut Vec<&'a ChannelName>,
    roles: &'a Holders,
    role: &Name,
) -> Result<(), Memory>
    ensures among { OnOk result ((x : List ℕ) → among (names_of list.new.items) x
        ≡ (ever_by (get_by_text roles.now role.now) x || among (names_of list.old.items) x)) }
{
    match roles.get(role.as_str()) {
        None => Ok(()),
        Some(all) => add_ever(list, all.all()),
    }
}

fn add_if_role<'a>(
    list: &mut Vec<&'a ChannelName>,
    roles: &'a Holders,
    what: &What,
) -> Result<(), Memory>
    ensures among { OnOk result ((x : List ℕ) → among (names_of list.new.items) x
        ≡ (ever_gives roles.now what.now x || among (names_of list.old.items) x)) }
{
    match what {
        What::Role(role) => add_of_role(list, roles, role),
        _ => Ok(()),
    }
}

fn add_by_roles<'a>(
    list: &mut Vec<&'a ChannelName>,
    roles: &'a Holders,
    all: &[Held],
) -> Result<(), Memory>
    ensures among { OnOk result ((x : List ℕ) → among (names_of list.new.items) x
        ≡ (ever_by_roles roles.now all.now x || among (names_of list.old.items) x)) }
{
    for held in all {
        add_if_role(list, roles, &held.what)?;
    }
    Ok(())
}

/// The channels that a user that has or had these may ever have had, some more than once.
fn found_ever<'a>(
    alloc: Global,
    roles: &'a Holders,
    all: &'a [Held],
    everyone: &'a ChannelName,
) -> Result<Vec<&'a ChannelName>, Memory>
    requires { everyone.now ≡ principals.everyone }
    ensures { IfOk result (λ list. (x : List ℕ) → among (names_of list.items) x
        ≡ may_have roles.now all.now x) }
{
    let mut list = Vec::new(alloc);
    add_channel(&mut list, everyone)?;
    add_ever(&mut list, all)?;
    add_by_roles(&mut list, roles, all)?;
    Ok(list)
}

/// The channels that a user that has or had these may ever have had, by rising bytes, given the
/// channel that every user has.
pub fn channels_ever<'a>(
    alloc: Global,
    roles: &'a Holders,
    all: &'a [Held],
    everyone: &'a ChannelName,
) -> Result<Vec<&'a ChannelName>, Memory>
    requires { everyone.now ≡ principals.everyone }
    ensures among { IfOk result (λ list. (x : List ℕ) → among (names_of list.items) x
        ≡ may_have roles.now all.now x) }
    ensures sorted { IfOk result (λ list. AreSorted (names_of list.items)) }
{
    let found = found_ever(alloc, roles, all, everyone)?;
    Ok(in_order(found))
}
