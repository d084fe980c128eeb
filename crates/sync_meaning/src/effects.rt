//! Effects, which are kept in order, each once.

ghost use Rattle.std.specs.Prelude.{◌≡◌, ◌≤◌, [], true, length, insert, IfSome, IfNone, OnOk};
ghost use Rattle.std.specs.Cmp.{IsTotalOrder};
ghost use Rattle.std.specs.declared.cmp.Ordering as ordering;
ghost use Rattle.sg_names.specs.ItemList.{rises};
ghost use Rattle.sync_values.specs.Found.{Gives};
ghost use Rattle.sync_meaning.specs.inner.Arguments as names;
ghost use Rattle.sync_meaning.specs.inner.Arguments.{texts};
ghost use Rattle.sync_meaning.specs.inner.Leaves.{Leaves};
ghost use Rattle.sync_meaning.specs.Builtins as spec;

use crate::arguments::{channel_of, grantee_of, name_of};
use sg_names::{ChannelName, Channels, Grant, Grants, List, RoleGrant, RoleGrants};
use std::alloc::{AllocError, Global};
use std::cmp::Ordering;
use std::marker::Model;
use std::mem;
use sync_tokens::Place;
use sync_values::{FaultKind, Stop};

/// How many effects there may be.
const MAX_EFFECTS: usize = 1000;

/// What an accepted run does: the channels of the document, and what it grants.
#[derive(Drop)]
pub struct Effects {
    pub channels: Channels,
    pub grants: Grants,
    pub roles: RoleGrants,
}

/// The effects of a run so far, each of whose lists rises.
#[derive(Drop)]
pub struct Gathered {
    effects: Effects,
}

impl Model for Gathered {
    ghost use Rattle.sync_meaning.specs.declared.effects.Effects.{Effects};
    ghost use Rattle.sync_meaning.specs.Gathered.{DoRise};

    ghost Value = { Effects };

    ghost view = { λ g. g.effects };

    ghost invariant = { λ g. DoRise g.effects };
}

/// What has an order among others of its kind.
trait Ordered: Drop {
    ghost order: { Self → Self → ordering.Ordering };

    fn compare(&self, other: &Self) -> Ordering
        ensures { result ≡ order self.now other.now };
}

impl Ordered for ChannelName {
    ghost use Rattle.std.specs.Cmp.Lexicographic.{slice_cmp};
    ghost use Rattle.std.specs.Ordering.{nat_cmp};

    ghost order = { slice_cmp nat_cmp };

    fn compare(&self, other: &ChannelName) -> Ordering {
        self.order(other)
    }
}

impl Ordered for Grant {
    ghost use Rattle.sg_names.specs.Grants.{grant_cmp};

    ghost order = { λ a b. grant_cmp a b };

    fn compare(&self, other: &Grant) -> Ordering {
        self.order(other)
    }
}

impl Ordered for RoleGrant {
    ghost use Rattle.sg_names.specs.RoleGrants.{role_grant_cmp};

    ghost order = { λ a b. role_grant_cmp a b };

    fn compare(&self, other: &RoleGrant) -> Ordering {
        self.order(other)
    }
}

/// The place among items that rise at which an item goes, found by halves; none where it is there.
fn place_for<T: Ordered>(item: &T, items: &[T]) -> Option<usize>
    requires total { IsTotalOrder T.order }
    requires rises { rises T.order items.now ≡ true }
    ensures there { IfNone result (spec.put T.order item.now items.now ≡ items.now) }
    ensures within { IfSome result (λ at. at ≤ length items.now) }
    ensures place { IfSome result (λ at. spec.put T.order item.now items.now
        ≡ insert items.now at item.now) }
{
    match items.binary_search_by(|other| other.compare(item)) {
        Ok(_) => None,
        Err(at) => Some(at),
    }
}

/// A grant of the channel of a name to the user or role of another.
fn grant_of(alloc: Global, place: Place, to: &str, channel: &str) -> Result<Grant, Stop>
    ensures { Gives (names.grant_named place to.now channel.now) result }
{
    let to = grantee_of(alloc, place, to)?;
    match channel_of(alloc, place, channel) {
        Ok(channel) => Ok(Grant { to, channel }),
        Err(stop) => {
            drop(to);
            Err(stop)
        }
    }
}

/// A role of a user, by their names.
fn role_grant_of(alloc: Global, place: Place, user: &str, role: &str) -> Result<RoleGrant, Stop>
    ensures { Gives (names.role_grant_named place user.now role.now) result }
{
    let user = name_of(alloc, place, user)?;
    match name_of(alloc, place, role) {
        Ok(role) => Ok(RoleGrant { user, role }),
        Err(stop) => {
            drop(user);
            Err(stop)
        }
    }
}

/// An item put at its place, where it isn't there yet.
fn put<T: Ordered>(alloc: Global, item: T, items: &mut List<T>) -> Result<(), AllocError>
    requires total { IsTotalOrder T.order }
    requires rises { rises T.order items.old ≡ true }
    ensures put { OnOk result (items.new ≡ spec.put T.order item items.old) }
    ensures rises { rises T.order items.new ≡ true }
{
    if let Some(at) = place_for(&item, items.as_slice()) {
        let mut all = mem::replace(items, List::new(alloc)).into_vec();
        all.insert(at, item)?;
        *items = List::from_vec(all);
    }
    Ok(())
}

impl Effects {
    /// None.
    fn none(alloc: Global) -> Effects
        ensures channels { result.channels ≡ [] }
        ensures grants { result.grants ≡ [] }
        ensures roles { result.roles ≡ [] }
    {
        Effects {
            channels: List::new(alloc),
            grants: List::new(alloc),
            roles: List::new(alloc),
        }
    }

    /// That there are not too many.
    #[tactic(auto, unfolding(crate::specs::Builtins::within_limits))]
    fn within(&self, place: Place) -> Result<(), Stop>
        ensures { Leaves (spec.within_limits place self.now) result self.now }
    {
        let channels = self.channels.as_slice().len();
        let grants = self.grants.as_slice().len();
        let roles = self.roles.as_slice().len();
        if channels > MAX_EFFECTS
            || grants > MAX_EFFECTS
            || roles > MAX_EFFECTS
            || channels + grants + roles > MAX_EFFECTS
        {
            return Err(Stop::fault(FaultKind::Size, place));
        }
        Ok(())
    }
}

impl Gathered {
    /// None.
    pub fn none(alloc: Global) -> Gathered
        ensures channels { result.channels ≡ [] }
        ensures grants { result.grants ≡ [] }
        ensures roles { result.roles ≡ [] }
    {
        Gathered {
            effects: Effects::none(alloc),
        }
    }

    /// The effects.
    pub fn into_effects(self) -> Effects
        ensures { result ≡ self }
    {
        self.effects
    }

    /// The channel of this name more.
    #[tactic(auto, unfolding(crate::specs::inner::Arguments::add_channel_named, crate::specs::Builtins::add_channel))]
    fn add_channel(&mut self, alloc: Global, place: Place, channel: &str) -> Result<(), Stop>
        ensures { Leaves (names.add_channel_named place channel.now self.old) result self.new }
    {
        let channel = channel_of(alloc, place, channel)?;
        put(alloc, channel, &mut self.effects.channels)?;
        self.effects.within(place)
    }

    /// The channel of this name for a user or role more.
    #[tactic(auto, unfolding(crate::specs::inner::Arguments::add_grant_named, crate::specs::Builtins::add_grant))]
    fn add_grant(
        &mut self,
        alloc: Global,
        place: Place,
        to: &str,
        channel: &str,
    ) -> Result<(), Stop>
        ensures { Leaves (names.add_grant_named place to.now channel.now self.old) result
            self.new }
    {
        let grant = grant_of(alloc, place, to, channel)?;
        put(alloc, grant, &mut self.effects.grants)?;
        self.effects.within(place)
    }

    /// The role of this name for a user more.
    #[tactic(auto, unfolding(crate::specs::inner::Arguments::add_role_named, crate::specs::Builtins::add_role))]
    fn add_role(&mut self, alloc: Global, place: Place, user: &str, role: &str) -> Result<(), Stop>
        ensures { Leaves (names.add_role_named place user.now role.now self.old) result
            self.new }
    {
        let role = role_grant_of(alloc, place, user, role)?;
        put(alloc, role, &mut self.effects.roles)?;
        self.effects.within(place)
    }

    /// The channels of these names more.
    pub(crate) fn add_channels(
        &mut self,
        alloc: Global,
        place: Place,
        channels: &[&str],
    ) -> Result<(), Stop>
        ensures { Leaves (spec.for_each (names.add_channel_named place) (texts channels.now)
            self.old) result self.new }
    {
        let mut left = channels;
        while let [channel, rest @ ..] = left {
            self.add_channel(alloc, place, channel)?;
            left = rest;
        }
        Ok(())
    }

    #[tactic(auto, unfolding(crate::specs::inner::Arguments::add_grants_named_to))]
    fn add_grants_to(
        &mut self,
        alloc: Global,
        place: Place,
        channels: &[&str],
        to: &str,
    ) -> Result<(), Stop>
        ensures { Leaves (names.add_grants_named_to place (texts channels.now) to.now self.old)
            result self.new }
    {
        let mut left = channels;
        while let [channel, rest @ ..] = left {
            self.add_grant(alloc, place, to, channel)?;
            left = rest;
        }
        Ok(())
    }

    /// Each of these channels to each of those users and roles.
    pub(crate) fn add_grants(
        &mut self,
        alloc: Global,
        place: Place,
        grantees: &[&str],
        channels: &[&str],
    ) -> Result<(), Stop>
        ensures { Leaves (spec.for_each (names.add_grants_named_to place (texts channels.now))
            (texts grantees.now) self.old) result self.new }
    {
        let mut left = grantees;
        while let [to, rest @ ..] = left {
            self.add_grants_to(alloc, place, channels, to)?;
            left = rest;
        }
        Ok(())
    }

    #[tactic(auto, unfolding(crate::specs::inner::Arguments::add_roles_named_to))]
    fn add_roles_to(
        &mut self,
        alloc: Global,
        place: Place,
        roles: &[&str],
        user: &str,
    ) -> Result<(), Stop>
        ensures { Leaves (names.add_roles_named_to place (texts roles.now) user.now self.old)
            result self.new }
    {
        let mut left = roles;
        while let [role, rest @ ..] = left {
            self.add_role(alloc, place, user, role)?;
            left = rest;
        }
        Ok(())
    }

    /// Each of these roles to each of those users.
    pub(crate) fn add_roles(
        &mut self,
        alloc: Global,
        place: Place,
        users: &[&str],
        roles: &[&str],
    ) -> Result<(), Stop>
        ensures { Leaves (spec.for_each (names.add_roles_named_to place (texts roles.now))
            (texts users.now) self.old) result self.new }
    {
        let mut left = users;
        while let [user, rest @ ..] = left {
            self.add_roles_to(alloc, place, roles, user)?;
            left = rest;
        }
        Ok(())
    }
}
