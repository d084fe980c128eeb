//! The channels and the roles of a user at a place.

ghost use Rattle.std.specs.Prelude.{◌≡◌, ◌&&◌, ◌||◌, ℕ, List, IfOk, OnOk};
ghost use Rattle.std.specs.BTreeMap.{get_by_text};
ghost use Rattle.std.specs.Str.{bytes_eq};
ghost use Rattle.sg_history.specs.History.{among};
ghost use Rattle.sg_history.specs.Principals as principals;
ghost use Rattle.std.specs.List.{list_any};
ghost use Rattle.grant_tracks.specs.Reads as reads;
ghost use Rattle.log_views.specs.Sorted.{AreSorted};

use crate::held::{Held, Holding};
use crate::holders::{self, Holders};
use crate::things::What;
use log_views::in_order;
use sg_history::{ChannelName, Name, TextFault};
use sg_outside::Memory;
use std::alloc::{AllocError, Global};

/// The channel `!`, which every user has.
pub fn everyone(alloc: Global) -> Result<ChannelName, Memory>
    ensures { IfOk result (λ channel. channel ≡ principals.everyone) }
{
    match ChannelName::parse(alloc, "!") {
        Ok(channel) => Ok(channel),
        Err(TextFault::Memory) => Err(AllocError),
        Err(TextFault::Bad) => unreachable!(),
    }
}

fn add_channel(
    alloc: Global,
    list: &mut Vec<ChannelName>,
    channel: &ChannelName,
) -> Result<(), Memory>
    ensures among { OnOk result ((x : List ℕ) → among list.new.items x
        ≡ (bytes_eq channel.now x || among list.old.items x)) }
{
    list.push(channel.copy(alloc)?)?;
    Ok(())
}

fn add_if_channel(alloc: Global, list: &mut Vec<ChannelName>, what: &What) -> Result<(), Memory>
    ensures among { OnOk result ((x : List ℕ) → among list.new.items x
        ≡ (reads.is_channel what.now x || among list.old.items x)) }
{
    match what {
        What::Channel(channel) => add_channel(alloc, list, channel),
        _ => Ok(()),
    }
}

/// Adds those of these things that are channels.
fn add_channels(alloc: Global, list: &mut Vec<ChannelName>, held: &[&Held]) -> Result<(), Memory>
    ensures among { OnOk result ((x : List ℕ) → among list.new.items x
        ≡ (list_any (λ h. reads.is_channel h.now.what x) held.now || among list.old.items x)) }
{
    for one in held {
        add_if_channel(alloc, list, &one.what)?;
    }
    Ok(())
}

/// Adds the channels that are held at a place.
fn add_held_channels(
    alloc: Global,
    list: &mut Vec<ChannelName>,
    all: &Holding,
    k: u64,
) -> Result<(), Memory>
    ensures among { OnOk result ((x : List ℕ) → among list.new.items x
        ≡ (reads.channel_among all.now.items k x || among list.old.items x)) }
{
    let held = all.held(alloc, k)?;
    add_channels(alloc, list, held.as_slice())
}

/// Adds the channels of a role where it exists.
fn add_role_channels(
    alloc: Global,
    list: &mut Vec<ChannelName>,
    roles: &Holders,
    role: &Name,
    k: u64,
) -> Result<(), Memory>
    ensures among { OnOk result ((x : List ℕ) → among list.new.items x
        ≡ (reads.role_channel roles.now role.now k x || among list.old.items x)) }
{
    if let Some(kept) = roles.get(role.as_str()) {
        if kept.holds(&What::Exists, k) {
            add_held_channels(alloc, list, kept, k)?;
        }
    }
    Ok(())
}

fn add_if_role(
    alloc: Global,
    list: &mut Vec<ChannelName>,
    roles: &Holders,
    what: &What,
    k: u64,
) -> Result<(), Memory>
    ensures among { OnOk result ((x : List ℕ) → among list.new.items x
        ≡ (reads.gives_channel roles.now what.now k x || among list.old.items x)) }
{
    match what {
        What::Role(role) => add_role_channels(alloc, list, roles, role, k),
        _ => Ok(()),
    }
}

/// Adds the channels of those of these things that are roles.
fn add_by_roles(
    alloc: Global,
    list: &mut Vec<ChannelName>,
    roles: &Holders,
    held: &[&Held],
    k: u64,
) -> Result<(), Memory>
    ensures among { OnOk result ((x : List ℕ) → among list.new.items x
        ≡ (list_any (λ h. reads.gives_channel roles.now h.now.what k x) held.now
        || among list.old.items x)) }
{
    for one in held {
        add_if_role(alloc, list, roles, &one.what, k)?;
    }
    Ok(())
}

/// Adds the channels that are held at a place, and those of the roles that are.
fn add_held(
    alloc: Global,
    list: &mut Vec<ChannelName>,
    roles: &Holders,
    held: &[&Held],
    k: u64,
) -> Result<(), Memory>
    ensures among { OnOk result ((x : List ℕ) → among list.new.items x
        ≡ (list_any (λ h. reads.gives_channel roles.now h.now.what k x) held.now
        || (list_any (λ h. reads.is_channel h.now.what x) held.now
        || among list.old.items x))) }
{
    add_channels(alloc, list, held)?;
    add_by_roles(alloc, list, roles, held, k)
}

/// Adds the channels of a user that exists, but for the one that every user has.
fn add_own(
    alloc: Global,
    list: &mut Vec<ChannelName>,
    roles: &Holders,
    all: &Holding,
    k: u64,
) -> Result<(), Memory>
    ensures among { OnOk result ((x : List ℕ) → among list.new.items x
        ≡ (reads.by_roles roles.now all.now.items k x || (reads.channel_among all.now.items k x
        || among list.old.items x))) }
{
    let held = all.held(alloc, k)?;
    add_held(alloc, list, roles, held.as_slice(), k)
}

/// Adds the channels of a user that exists.
fn add_user(
    alloc: Global,
    list: &mut Vec<ChannelName>,
    roles: &Holders,
    all: &Holding,
    k: u64,
) -> Result<(), Memory>
    ensures among { OnOk result ((x : List ℕ) → among list.new.items x
        ≡ (reads.by_roles roles.now all.now.items k x || (reads.channel_among all.now.items k x
        || (bytes_eq principals.everyone x || among list.old.items x)))) }
{
    let everyone = everyone(alloc)?;
    add_channel(alloc, list, &everyone)?;
    add_own(alloc, list, roles, all, k)
}

/// The channels of a user that has or had these, none where it does not exist at the place.
fn channels_in(
    alloc: Global,
    roles: &Holders,
    all: &Holding,
    k: u64,
) -> Result<Vec<ChannelName>, Memory>
    ensures among { IfOk result (λ list. (x : List ℕ) → among list.items x
        ≡ reads.list_channel roles.now all.now.items k x) }
{
    let mut list = Vec::new(alloc);
    if all.holds(&What::Exists, k) {
        add_user(alloc, &mut list, roles, all, k)?;
    }
    Ok(list)
}

/// The channels of a user at a place, in any order, none where it does not exist there.
fn channels_found(
    alloc: Global,
    users: &Holders,
    roles: &Holders,
    user: &Name,
    k: u64,
) -> Result<Vec<ChannelName>, Memory>
    ensures { IfOk result (λ list. (x : List ℕ) → among list.items x
        ≡ reads.user_channel roles.now (get_by_text users.now user.now) k x) }
{
    match users.get(user.as_str()) {
        None => Ok(Vec::new(alloc)),
        Some(all) => channels_in(alloc, roles, all, k),
    }
}

/// The channels of a user at a place, none where it does not exist there.
pub fn channels_of(
    alloc: Global,
    users: &Holders,
    roles: &Holders,
    user: &Name,
    k: u64,
) -> Result<Vec<ChannelName>, Memory>
    ensures among { IfOk result (λ list. (x : List ℕ) → among list.items x
        ≡ reads.user_channel roles.now (get_by_text users.now user.now) k x) }
    ensures sorted { IfOk result (λ list. AreSorted list.items) }
{
    let found = channels_found(alloc, users, roles, user, k)?;
    Ok(in_order(found))
}

fn add_role(alloc: Global, list: &mut Vec<Name>, role: &Name) -> Result<(), Memory>
    ensures among { OnOk result ((x : List ℕ) → among list.new.items x
        ≡ (bytes_eq role.now x || among list.old.items x)) }
{
    list.push(role.copy(alloc)?)?;
    Ok(())
}

fn add_if_existing(
    alloc: Global,
    list: &mut Vec<Name>,
    roles: &Holders,
    what: &What,
    k: u64,
) -> Result<(), Memory>
    ensures among { OnOk result ((x : List ℕ) → among list.new.items x
        ≡ (reads.is_existing roles.now what.now k x || among list.old.items x)) }
{
    if let What::Role(role) = what {
        if holders::holds(roles, role.as_str(), &What::Exists, k) {
            return add_role(alloc, list, role);
        }
    }
    Ok(())
}

/// Adds those of these things that are roles that exist at a place.
fn add_roles(
    alloc: Global,
    list: &mut Vec<Name>,
    roles: &Holders,
    held: &[&Held],
    k: u64,
) -> Result<(), Memory>
    ensures among { OnOk result ((x : List ℕ) → among list.new.items x
        ≡ (list_any (λ h. reads.is_existing roles.now h.now.what k x) held.now
        || among list.old.items x)) }
{
    for one in held {
        add_if_existing(alloc, list, roles, &one.what, k)?;
    }
    Ok(())
}

/// Adds the roles that exist and are held at a place.
fn add_held_roles(
    alloc: Global,
    list: &mut Vec<Name>,
    roles: &Holders,
    all: &Holding,
    k: u64,
) -> Result<(), Memory>
    ensures among { OnOk result ((x : List ℕ) → among list.new.items x
        ≡ (reads.role_among roles.now all.now.items k x || among list.old.items x)) }
{
    let held = all.held(alloc, k)?;
    add_roles(alloc, list, roles, held.as_slice(), k)
}

/// The roles of a user that has or had these, none where it does not exist at the place.
fn roles_in(alloc: Global, roles: &Holders, all: &Holding, k: u64) -> Result<Vec<Name>, Memory>
    ensures among { IfOk result (λ list. (x : List ℕ) → among list.items x
        ≡ reads.list_role roles.now all.now.items k x) }
{
    let mut list = Vec::new(alloc);
    if all.holds(&What::Exists, k) {
        add_held_roles(alloc, &mut list, roles, all, k)?;
    }
    Ok(list)
}

/// The roles of a user at a place, in any order, none where it does not exist there.
fn roles_found(
    alloc: Global,
    users: &Holders,
    roles: &Holders,
    user: &Name,
    k: u64,
) -> Result<Vec<Name>, Memory>
    ensures { IfOk result (λ list. (x : List ℕ) → among list.items x
        ≡ reads.user_role roles.now (get_by_text users.now user.now) k x) }
{
    match users.get(user.as_str()) {
        None => Ok(Vec::new(alloc)),
        Some(all) => roles_in(alloc, roles, all, k),
    }
}

/// The roles of a user at a place, none where it does not exist there.
pub fn roles_of(
    alloc: Global,
    users: &Holders,
    roles: &Holders,
    user: &Name,
    k: u64,
) -> Result<Vec<Name>, Memory>
    ensures among { IfOk result (λ list. (x : List ℕ) → among list.items x
        ≡ reads.user_role roles.now (get_by_text users.now user.now) k x) }
    ensures sorted { IfOk result (λ list. AreSorted list.items) }
{
    let found = roles_found(alloc, users, roles, user, k)?;
    Ok(in_order(found))
}
