//! The functions that are built in.

ghost use Rattle.std.specs.Prelude.{◌≡◌, codes};
ghost use Rattle.sync_values.specs.Found.{Gives};
ghost use Rattle.sync_values.specs.Values.{found_then};
ghost use Rattle.sync_meaning.specs.Acts.{Does};
ghost use Rattle.sync_meaning.specs.inner.Arguments as names;
ghost use Rattle.sync_meaning.specs.inner.Arguments.{texts, AreSorted};
ghost use Rattle.sync_meaning.specs.Builtins as spec;

use crate::arguments::{Kind, all_channels, has_name, names_in};
use crate::state::{Context, State};
use sg_names::{ChannelName, Name};
use std::alloc::Global;
use sync_tokens::Place;
use sync_values::{Builtin, FaultKind, Rule, RuleKind, Stop, Value, is_list};

/// Whether one of these names is among those. Allocates nothing.
fn shares_name(all: &[Name], names: &[&str]) -> bool
    requires { AreSorted (texts names.now) }
    ensures { result ≡ spec.share_one all.now (texts names.now) }
{
    all.iter().any(|name| has_name(names, name.as_bytes()))
}

/// Whether one of these channels is `*`. Allocates nothing.
fn has_every(all: &[ChannelName]) -> bool
    ensures { result ≡ spec.is_one_of all.now (codes "*") }
{
    all.iter()
        .any(|channel| b"*".as_slice() == channel.as_bytes())
}

/// Whether one of these channels is among those. Allocates nothing.
fn shares_channel(all: &[ChannelName], channels: &[&str]) -> bool
    requires { AreSorted (texts channels.now) }
    ensures { result ≡ spec.share_one all.now (texts channels.now) }
{
    all.iter()
        .any(|channel| has_name(channels, channel.as_bytes()))
}

impl Context {
    /// Whether the user is one of these; the administrator passes.
    #[tactic(auto, unfolding(crate::specs::Builtins::passes_user))]
    fn passes_user(&self, names: &[&str]) -> bool
        requires { AreSorted (texts names.now) }
        ensures { result ≡ spec.passes_user self.now (texts names.now) }
    {
        match &self.user {
            None => true,
            Some(user) => has_name(names, user.as_bytes()),
        }
    }

    /// Whether the user has one of these roles; the administrator passes.
    #[tactic(auto, unfolding(crate::specs::Builtins::passes_role))]
    fn passes_role(&self, roles: &[&str]) -> bool
        requires { AreSorted (texts roles.now) }
        ensures { result ≡ spec.passes_role self.now (texts roles.now) }
    {
        match &self.user {
            None => true,
            Some(_) => shares_name(self.roles.as_slice(), roles),
        }
    }

    /// Whether the user has one of these channels or `*`; the administrator passes.
    #[tactic(auto, unfolding(crate::specs::Builtins::passes_access))]
    fn passes_access(&self, channels: &[&str]) -> bool
        requires { AreSorted (texts channels.now) }
        ensures { result ≡ spec.passes_access self.now (texts channels.now) }
    {
        match &self.user {
            None => true,
            Some(_) => {
                has_every(self.channels.as_slice())
                    || shares_channel(self.channels.as_slice(), channels)
            }
        }
    }

    /// The administrator alone passes.
    #[tactic(auto, unfolding(crate::specs::Builtins::passes_admin))]
    fn passes_admin(&self) -> bool
        ensures { result ≡ spec.passes_admin self.now }
    {
        match &self.user {
            None => true,
            Some(_) => false,
        }
    }
}

/// What a rule gives, where it passes.
fn unless_passing(
    passes: bool,
    kind: RuleKind,
    place: Place,
    state: &mut State,
) -> Result<Value, Stop>
    ensures { Does (spec.unless_passing passes kind place state.old) result state.new }
{
    if passes {
        Ok(Value::Undefined)
    } else {
        Err(Stop::Deny(Rule { kind, place }))
    }
}

/// Puts the document into these channels.
fn put_into(
    alloc: Global,
    place: Place,
    channels: &[&str],
    state: &mut State,
) -> Result<Value, Stop>
    ensures { Does (found_then (spec.for_each (names.add_channel_named place) (texts channels.now)
        state.old.effects) (spec.with_effects state.old)) result state.new }
{
    state.effects.add_channels(alloc, place, channels)?;
    Ok(Value::Undefined)
}

/// `channel(..)`
fn channel(alloc: Global, place: Place, values: &[Value], state: &mut State) -> Result<Value, Stop>
    ensures { Does (spec.channel place values.now state.old) result state.new }
{
    let channels = all_channels(alloc, place, values)?;
    put_into(alloc, place, channels.as_slice(), state)
}

/// Grants each of these channels to each of those.
fn grant(
    alloc: Global,
    place: Place,
    grantees: &[&str],
    channels: &[&str],
    state: &mut State,
) -> Result<Value, Stop>
    ensures { Does (found_then (spec.for_each (names.add_grants_named_to place
        (texts channels.now)) (texts grantees.now) state.old.effects)
        (spec.with_effects state.old)) result state.new }
{
    state.effects.add_grants(alloc, place, grantees, channels)?;
    Ok(Value::Undefined)
}

/// `access(users, channels)`
fn access(
    alloc: Global,
    place: Place,
    users: &Value,
    channels: &Value,
    state: &mut State,
) -> Result<Value, Stop>
    ensures { Does (spec.access place users.now channels.now state.old) result state.new }
{
    let grantees = names_in(alloc, Kind::Grantee, place, users)?;
    let channels = names_in(alloc, Kind::Channel, place, channels)?;
    grant(
        alloc,
        place,
        grantees.as_slice(),
        channels.as_slice(),
        state,
    )
}

/// Gives each of these roles to each of those users.
fn give(
    alloc: Global,
    place: Place,
    users: &[&str],
    roles: &[&str],
    state: &mut State,
) -> Result<Value, Stop>
    ensures { Does (found_then (spec.for_each (names.add_roles_named_to place (texts roles.now))
        (texts users.now) state.old.effects) (spec.with_effects state.old)) result state.new }
{
    state.effects.add_roles(alloc, place, users, roles)?;
    Ok(Value::Undefined)
}

/// `role(users, roles)`
fn role(
    alloc: Global,
    place: Place,
    users: &Value,
    roles: &Value,
    state: &mut State,
) -> Result<Value, Stop>
    ensures { Does (spec.role place users.now roles.now state.old) result state.new }
{
    let users = names_in(alloc, Kind::User, place, users)?;
    let roles = names_in(alloc, Kind::Role, place, roles)?;
    give(alloc, place, users.as_slice(), roles.as_slice(), state)
}

/// `requireUser(users)`
fn require_user(
    alloc: Global,
    place: Place,
    users: &Value,
    state: &mut State,
) -> Result<Value, Stop>
    ensures { Does (spec.require_user place users.now state.old) result state.new }
{
    let names = names_in(alloc, Kind::User, place, users)?;
    let passes = state.context.passes_user(names.as_slice());
    unless_passing(passes, RuleKind::User, place, state)
}

/// `requireRole(roles)`
fn require_role(
    alloc: Global,
    place: Place,
    roles: &Value,
    state: &mut State,
) -> Result<Value, Stop>
    ensures { Does (spec.require_role place roles.now state.old) result state.new }
{
    let roles = names_in(alloc, Kind::Role, place, roles)?;
    let passes = state.context.passes_role(roles.as_slice());
    unless_passing(passes, RuleKind::Role, place, state)
}

/// `requireAccess(channels)`
fn require_access(
    alloc: Global,
    place: Place,
    channels: &Value,
    state: &mut State,
) -> Result<Value, Stop>
    ensures { Does (spec.require_access place channels.now state.old) result state.new }
{
    let channels = names_in(alloc, Kind::Channel, place, channels)?;
    let passes = state.context.passes_access(channels.as_slice());
    unless_passing(passes, RuleKind::Access, place, state)
}

/// `requireAdmin()`
#[tactic(auto, unfolding(crate::specs::Builtins::require_admin))]
fn require_admin(place: Place, state: &mut State) -> Result<Value, Stop>
    ensures { Does (spec.require_admin place state.old) result state.new }
{
    let passes = state.context.passes_admin();
    unless_passing(passes, RuleKind::Admin, place, state)
}

/// What a builtin gives and does. Another count of arguments is a fault.
pub fn built_in(
    alloc: Global,
    place: Place,
    builtin: Builtin,
    values: &[Value],
    state: &mut State,
) -> Result<Value, Stop>
    ensures { Does (spec.built_in place builtin values.now state.old) result state.new }
{
    match (builtin, values) {
        (Builtin::Channel, [_, ..]) => channel(alloc, place, values, state),
        (Builtin::Access, [users, channels]) => access(alloc, place, users, channels, state),
        (Builtin::Role, [users, roles]) => role(alloc, place, users, roles, state),
        (Builtin::RequireUser, [users]) => require_user(alloc, place, users, state),
        (Builtin::RequireRole, [roles]) => require_role(alloc, place, roles, state),
        (Builtin::RequireAccess, [channels]) => require_access(alloc, place, channels, state),
        (Builtin::RequireAdmin, []) => require_admin(place, state),
        (Builtin::IsArray, [value]) => Ok(Value::Bool(is_list(value))),
        _ => Err(Stop::fault(FaultKind::TypeFault, place)),
    }
}
