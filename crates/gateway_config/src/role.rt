//! Roles, and what users have as roles do.

ghost use Rattle.std.specs.Prelude.{◌≡◌, ◌||◌, ℕ, List, [], codes, OnOk};
ghost use Rattle.std.specs.Str.{bytes_eq};
ghost use Rattle.serde_json.specs.Find.{get_member};
ghost use Rattle.serde_json.specs.View.{view, items_view};
ghost use Rattle.sg_names.specs.Grammar.{is_name};
ghost use Rattle.gateway_config.specs.Faults.{IsResultOf, at_member, channels_fault, first_fault, name_fault, needed_why, role_object_fault, roles_fault};
ghost use Rattle.gateway_config.specs.Members.{member_text};
ghost use Rattle.gateway_config.specs.inner.Objects.{holder_tests, members_of, role_fault, roles_test};
ghost use Rattle.gateway_config.specs.inner.Seen.{has};
ghost use Rattle.gateway_config.specs.Values.{member_channels, member_items, name_of, role_in, role_of, roles_of};

use crate::config::{ConfigRole, ConfigRoles};
use crate::fault::ConfigFault;
use crate::lists::channels_in;
use crate::object::{Object, refuse_at};
use crate::seen::{Seen, note};
use crate::texts::name_in;
use serde_json::Value;
use sg_history::{Channels, ConfigWhy, Name};
use std::alloc::Global;
use std::collections::BTreeMap;

/// The text of an object's name.
fn name_text<'a>(alloc: Global, object: &Object<'_, 'a>) -> Result<&'a str, ConfigFault>
    ensures { IsResultOf (at_member object.now.path.now (codes "name") (needed_why
        (member_text (λ t. is_name t)) (get_member (codes "name") (members_of object.now))))
        (λ t. t.now ≡ name_of (members_of object.now)) result }
{
    let Some(value) = object.get("name") else {
        return Err(object.refuse(alloc, "name", ConfigWhy::Missing));
    };
    match name_in(value) {
        Some(text) => Ok(text),
        None => Err(object.refuse(alloc, "name", ConfigWhy::Value)),
    }
}

/// Reads the name, which no earlier object has.
fn read_name<'a>(
    alloc: Global,
    object: &Object<'_, 'a>,
    seen: &mut Seen<'a>,
) -> Result<Name, ConfigFault>
    ensures read { IsResultOf
        (name_fault object.now.path.now (has seen.old) (members_of object.now))
        (λ name. name ≡ name_of (members_of object.now)) result }
    ensures seen { OnOk result ((t : List ℕ)
        → has seen.new t
        ≡ (bytes_eq (name_of (members_of object.now)) t || has seen.old t)) }
{
    let text = name_text(alloc, object)?;
    if !note(seen, text)? {
        return Err(object.refuse(alloc, "name", ConfigWhy::Twice));
    }
    match Name::parse(alloc, text) {
        Ok(name) => Ok(name),
        Err(_) => Err(ConfigFault::Memory),
    }
}

fn read_channels(alloc: Global, object: &Object<'_, '_>) -> Result<Channels, ConfigFault>
    ensures { IsResultOf (channels_fault object.now.path.now (members_of object.now))
        (λ channels. channels ≡ member_channels (members_of object.now)) result }
{
    let Some(value) = object.get("channels") else {
        return Ok(Channels::new(alloc));
    };
    match channels_in(alloc, value)? {
        Some(channels) => Ok(channels),
        None => Err(object.refuse(alloc, "channels", ConfigWhy::Value)),
    }
}

/// Reads the name and the channels of a role or a user.
pub(crate) fn read_holder<'a>(
    alloc: Global,
    object: &Object<'_, 'a>,
    seen: &mut Seen<'a>,
) -> Result<ConfigRole, ConfigFault>
    ensures read { IsResultOf (first_fault (holder_tests object.now.path.now (has seen.old)
        (members_of object.now))) (λ role. role ≡ role_of (members_of object.now)) result }
    ensures seen { OnOk result ((t : List ℕ)
        → has seen.new t
        ≡ (bytes_eq (name_of (members_of object.now)) t || has seen.old t)) }
{
    let name = read_name(alloc, object, seen)?;
    let channels = read_channels(alloc, object)?;
    Ok(ConfigRole { name, channels })
}

fn read_object<'a>(
    alloc: Global,
    object: &Object<'_, 'a>,
    seen: &mut Seen<'a>,
) -> Result<ConfigRole, ConfigFault>
    ensures read { IsResultOf
        (role_object_fault object.now.path.now (has seen.old) (members_of object.now))
        (λ role. role ≡ role_of (members_of object.now)) result }
    ensures seen { OnOk result ((t : List ℕ)
        → has seen.new t
        ≡ (bytes_eq (name_of (members_of object.now)) t || has seen.old t)) }
{
    let role = read_holder(alloc, object, seen)?;
    match object.only(alloc, &["name", "channels"]) {
        Ok(()) => Ok(role),
        Err(fault) => {
            drop(role);
            Err(fault)
        }
    }
}

/// Reads the role at this place of the list.
fn read_role<'a>(
    alloc: Global,
    place: usize,
    value: &'a Value,
    seen: &mut Seen<'a>,
) -> Result<ConfigRole, ConfigFault>
    ensures read { IsResultOf (role_fault place (has seen.old) (view value.now))
        (λ role. role ≡ role_in (view value.now)) result }
    ensures seen { OnOk result ((t : List ℕ)
        → has seen.new t
        ≡ (bytes_eq (role_in (view value.now)).name t || has seen.old t)) }
{
    let path = format!(in alloc; "/roles/{place}")?;
    match value.as_object() {
        Some(members) => read_object(alloc, &Object::new(path.as_str(), members), seen),
        None => Err(refuse_at(alloc, path.as_str(), ConfigWhy::Value)),
    }
}

fn read_items(alloc: Global, items: &[Value]) -> Result<ConfigRoles, ConfigFault>
    ensures { IsResultOf (roles_fault [] (items_view items.now))
        (λ roles. roles ≡ roles_of (items_view items.now)) result }
{
    let mut roles = ConfigRoles::new(alloc);
    let mut seen = BTreeMap::new(alloc);
    for item in items {
        let role = read_role(alloc, roles.as_slice().len(), item, &mut seen)?;
        roles.push(role)?;
    }
    Ok(roles)
}

/// Reads the roles of a configuration.
pub(crate) fn read_roles(alloc: Global, object: &Object<'_, '_>) -> Result<ConfigRoles, ConfigFault>
    ensures { IsResultOf (roles_test object.now.path.now (members_of object.now))
        (λ roles. roles ≡ roles_of (member_items (codes "roles") (members_of object.now))) result }
{
    let Some(value) = object.get("roles") else {
        return Ok(ConfigRoles::new(alloc));
    };
    match value.as_array() {
        Some(items) => read_items(alloc, items.as_slice()),
        None => Err(object.refuse(alloc, "roles", ConfigWhy::Value)),
    }
}
