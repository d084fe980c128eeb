//! What puts and documents give to whom.

ghost use Rattle.std.specs.Prelude.{◌≡◌, ◌++◌, [], Some, IfOk, OnOk};
ghost use Rattle.std.specs.Option.{option_copied};
ghost use Rattle.sg_history.specs.Puts as puts;
ghost use Rattle.sg_names.specs.declared.grants.Grantee.TheVariants as grantees;
ghost use Rattle.grant_tracks.specs.declared.things.What.TheVariants as what;
ghost use Rattle.grant_history.specs.Facts.{fact, channel_facts, role_facts, put_facts, grant_facts, gift_facts, mark_facts};
ghost use Rattle.grant_history.specs.Ledger.{facts_of_mark, facts_read, facts_read_in, write_facts};

use crate::facts::Fact;
use grant_tracks::What;
use log_index::{Marked, mark_in};
use sg_history::{
    ChannelName, Entry, Given, Grant, Grantee, Mark, Name, Principal, Put, RoleGrant,
};
use sg_outside::Memory;
use std::alloc::Global;

fn grantee(alloc: Global, of: Principal<'_>) -> Result<Grantee, Memory>
    ensures { IfOk result (λ g. g ≡ puts.grantee_in of.entry) }
{
    match of {
        Principal::User(name) => Ok(Grantee::User(name.copy(alloc)?)),
        Principal::Role(name) => Ok(Grantee::Role(name.copy(alloc)?)),
    }
}

fn roles_of(given: Given<'_>) -> &[Name]
    ensures { result.now ≡ (puts.given_in given.entry).roles }
{
    match given.roles {
        None => &[],
        Some(roles) => roles.as_slice(),
    }
}

/// That a user or a role has a channel.
fn channel_fact(alloc: Global, of: Principal<'_>, channel: &ChannelName) -> Result<Fact, Memory>
    ensures { IfOk result (λ f. f ≡ fact (puts.grantee_in of.entry) (what.Channel channel.now)) }
{
    let of = grantee(alloc, of)?;
    let what = What::Channel(channel.copy(alloc)?);
    Ok(Fact { of, what })
}

/// That a user has a role.
fn role_fact(alloc: Global, of: Principal<'_>, role: &Name) -> Result<Fact, Memory>
    ensures { IfOk result (λ f. f ≡ fact (puts.grantee_in of.entry) (what.Role role.now)) }
{
    let of = grantee(alloc, of)?;
    let what = What::Role(role.copy(alloc)?);
    Ok(Fact { of, what })
}

fn add_channels(
    alloc: Global,
    list: &mut Vec<Fact>,
    of: Principal<'_>,
    channels: &[ChannelName],
) -> Result<(), Memory>
    ensures { OnOk result (list.new.items
        ≡ list.old.items ++ channel_facts (puts.grantee_in of.entry) channels.now) }
{
    for channel in channels {
        list.push(channel_fact(alloc, of, channel)?)?;
    }
    Ok(())
}

fn add_roles(
    alloc: Global,
    list: &mut Vec<Fact>,
    of: Principal<'_>,
    roles: &[Name],
) -> Result<(), Memory>
    ensures { OnOk result (list.new.items
        ≡ list.old.items ++ role_facts (puts.grantee_in of.entry) roles.now) }
{
    for role in roles {
        list.push(role_fact(alloc, of, role)?)?;
    }
    Ok(())
}

/// Adds that a user or a role exists, and what it is given.
fn add_given(
    alloc: Global,
    list: &mut Vec<Fact>,
    of: Principal<'_>,
    given: Given<'_>,
) -> Result<(), Memory>
    ensures { OnOk result (list.new.items ≡ list.old.items
        ++ put_facts (puts.grantee_in of.entry) (Some (puts.given_in given.entry))) }
{
    let exists = Fact {
        of: grantee(alloc, of)?,
        what: What::Exists,
    };
    list.push(exists)?;
    add_channels(alloc, list, of, given.channels.as_slice())?;
    add_roles(alloc, list, of, roles_of(given))
}

/// What a put gives: none where it is a drop.
pub fn of_put(alloc: Global, put: Put<'_>) -> Result<Vec<Fact>, Memory>
    ensures { IfOk result (λ list. list.items
        ≡ put_facts (puts.grantee_in put.entry.of) (puts.principal_in put.entry.given)) }
{
    let mut list = Vec::new(alloc);
    if let Some(given) = put.given {
        add_given(alloc, &mut list, put.of, given)?;
    }
    Ok(list)
}

/// What one grant gives.
fn grant_fact(alloc: Global, grant: &Grant) -> Result<Fact, Memory>
    ensures { IfOk result (λ f. f ≡ fact grant.now.to (what.Channel grant.now.channel)) }
{
    let of = grant.to.copy(alloc)?;
    let what = What::Channel(grant.channel.copy(alloc)?);
    Ok(Fact { of, what })
}

/// What one grant of a role gives.
fn gift_fact(alloc: Global, gift: &RoleGrant) -> Result<Fact, Memory>
    ensures { IfOk result (λ f. f ≡ fact (grantees.User gift.now.user) (what.Role gift.now.role)) }
{
    let of = Grantee::User(gift.user.copy(alloc)?);
    let what = What::Role(gift.role.copy(alloc)?);
    Ok(Fact { of, what })
}

fn add_grants(alloc: Global, list: &mut Vec<Fact>, grants: &[Grant]) -> Result<(), Memory>
    ensures { OnOk result (list.new.items ≡ list.old.items ++ grant_facts grants.now) }
{
    for grant in grants {
        list.push(grant_fact(alloc, grant)?)?;
    }
    Ok(())
}

fn add_gifts(alloc: Global, list: &mut Vec<Fact>, gifts: &[RoleGrant]) -> Result<(), Memory>
    ensures { OnOk result (list.new.items ≡ list.old.items ++ gift_facts gifts.now) }
{
    for gift in gifts {
        list.push(gift_fact(alloc, gift)?)?;
    }
    Ok(())
}

/// What a revision gives by its effects.
fn of_effects(alloc: Global, grants: &[Grant], roles: &[RoleGrant]) -> Result<Vec<Fact>, Memory>
    ensures { IfOk result (λ list. list.items ≡ grant_facts grants.now ++ gift_facts roles.now) }
{
    let most = grants.len().saturating_add(roles.len());
    let mut list = Vec::with_capacity(alloc, most)?;
    add_grants(alloc, &mut list, grants)?;
    add_gifts(alloc, &mut list, roles)?;
    Ok(list)
}

/// What the document of a write gives where this is the write of its winner, and has its effects;
/// nothing where the entry is no write.
fn of_write(alloc: Global, entry: &Entry) -> Result<Vec<Fact>, Memory>
    ensures { IfOk result (λ list. list.items ≡ write_facts entry.now) }
{
    match entry.as_write() {
        None => Ok(Vec::new(alloc)),
        Some(write) => of_effects(alloc, write.grants.as_slice(), write.roles.as_slice()),
    }
}

/// What a mark gives.
pub fn of_mark(alloc: Global, mark: &Mark) -> Result<Vec<Fact>, Memory>
    ensures { IfOk result (λ list. list.items ≡ mark_facts mark.now) }
{
    of_effects(alloc, mark.grants.as_slice(), mark.roles.as_slice())
}

/// What a mark gives, where there is one.
fn of_any_mark(alloc: Global, mark: Option<&Mark>) -> Result<Vec<Fact>, Memory>
    ensures { IfOk result (λ list. list.items ≡ facts_of_mark (option_copied mark.entry)) }
{
    match mark {
        None => Ok(Vec::new(alloc)),
        Some(mark) => of_mark(alloc, mark),
    }
}

/// What a document gives by the entry that has its winner's effects: the write, or this mark.
pub fn of_entry(alloc: Global, entry: &Entry, marked: Option<Marked>) -> Result<Vec<Fact>, Memory>
    ensures { IfOk result (λ list. list.items ≡ facts_read entry.now marked) }
{
    match marked {
        None => of_write(alloc, entry),
        Some(marked) => of_any_mark(alloc, mark_in(entry, marked.mark)),
    }
}

/// The same where the entry is there; else nothing.
pub fn of_any_entry(
    alloc: Global,
    entry: Option<&Entry>,
    marked: Option<Marked>,
) -> Result<Vec<Fact>, Memory>
    ensures { IfOk result (λ list. list.items
        ≡ facts_read_in (option_copied entry.entry) marked) }
{
    match entry {
        None => Ok(Vec::new(alloc)),
        Some(entry) => of_entry(alloc, entry, marked),
    }
}
