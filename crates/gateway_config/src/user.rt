//! Users.

ghost use Rattle.std.specs.Prelude.{◌≡◌, ◌||◌, ℕ, List, [], codes, Some, IfOk, OnOk};
ghost use Rattle.std.specs.Str.{bytes_eq};
ghost use Rattle.serde_json.specs.View.{view, items_view};
ghost use Rattle.gateway_config.specs.Faults.{IsResultOf, at_member, first_fault, has_session, is_session_text, names_fault, session_fault, session_why, user_object_fault, users_fault};
ghost use Rattle.gateway_config.specs.Grammar.{is_session};
ghost use Rattle.gateway_config.specs.Members.{member_text};
ghost use Rattle.gateway_config.specs.inner.Objects.{further_tests, members_of, user_fault, user_tests, users_test};
ghost use Rattle.gateway_config.specs.inner.Seen.{has};
ghost use Rattle.gateway_config.specs.Values.{member_items, name_of, names_of, session_of, user_in, user_of, users_of};

use crate::config::{ConfigRole, ConfigUser, ConfigUsers};
use crate::fault::ConfigFault;
use crate::lists::names_in;
use crate::object::{Object, refuse_at};
use crate::role::read_holder;
use crate::seen::{Seen, note};
use crate::texts::session_in;
use json_doc::DocText;
use serde_json::Value;
use sg_history::{ConfigWhy, Names};
use std::alloc::Global;
use std::collections::BTreeMap;

fn read_names(alloc: Global, object: &Object<'_, '_>) -> Result<Names, ConfigFault>
    ensures { IsResultOf (names_fault object.now.path.now (members_of object.now))
        (λ names. names ≡ names_of (members_of object.now)) result }
{
    let Some(value) = object.get("roles") else {
        return Ok(Names::new(alloc));
    };
    match names_in(alloc, value)? {
        Some(names) => Ok(names),
        None => Err(object.refuse(alloc, "roles", ConfigWhy::Value)),
    }
}

/// Reads a session that the object has, and no earlier one.
fn read_own_session<'a>(
    alloc: Global,
    object: &Object<'_, 'a>,
    value: &'a Value,
    seen: &mut Seen<'a>,
) -> Result<DocText, ConfigFault>
    ensures read { IsResultOf (at_member object.now.path.now (codes "session")
        (session_why (has seen.old) (Some (view value.now))))
        (λ session. Some session ≡ member_text (λ t. is_session t) (view value.now)) result }
    ensures seen { IfOk result (λ session. (t : List ℕ)
        → has seen.new t ≡ (bytes_eq session t || has seen.old t)) }
{
    let Some(text) = session_in(value) else {
        return Err(object.refuse(alloc, "session", ConfigWhy::Value));
    };
    if !note(seen, text)? {
        return Err(object.refuse(alloc, "session", ConfigWhy::Twice));
    }
    Ok(DocText::from_str(alloc, text)?)
}

fn read_session<'a>(
    alloc: Global,
    object: &Object<'_, 'a>,
    seen: &mut Seen<'a>,
) -> Result<Option<DocText>, ConfigFault>
    ensures read { IsResultOf
        (session_fault object.now.path.now (has seen.old) (members_of object.now))
        (λ session. session ≡ session_of (members_of object.now)) result }
    ensures seen { OnOk result ((t : List ℕ)
        → has seen.new t
        ≡ (is_session_text (session_of (members_of object.now)) t || has seen.old t)) }
{
    match object.get("session") {
        Some(value) => Ok(Some(read_own_session(alloc, object, value, seen)?)),
        None => Ok(None),
    }
}

/// Reads what a user has and a role has not.
fn read_further<'a>(
    alloc: Global,
    object: &Object<'_, 'a>,
    seen: &mut Seen<'a>,
) -> Result<(Names, Option<DocText>), ConfigFault>
    ensures read { IsResultOf
        (first_fault (further_tests object.now.path.now (has seen.old) (members_of object.now)))
        (λ p. (p.0 ≡ names_of (members_of object.now))
        × (p.1 ≡ session_of (members_of object.now))) result }
    ensures seen { OnOk result ((t : List ℕ)
        → has seen.new t
        ≡ (is_session_text (session_of (members_of object.now)) t || has seen.old t)) }
{
    let roles = read_names(alloc, object)?;
    let session = read_session(alloc, object, seen)?;
    Ok((roles, session))
}

fn read_members<'a>(
    alloc: Global,
    object: &Object<'_, 'a>,
    names: &mut Seen<'a>,
    sessions: &mut Seen<'a>,
) -> Result<ConfigUser, ConfigFault>
    ensures read { IsResultOf (first_fault (user_tests object.now.path.now
        (has names.old) (has sessions.old) (members_of object.now)))
        (λ user. user ≡ user_of (members_of object.now)) result }
    ensures names { OnOk result ((t : List ℕ)
        → has names.new t
        ≡ (bytes_eq (name_of (members_of object.now)) t || has names.old t)) }
    ensures sessions { OnOk result ((t : List ℕ)
        → has sessions.new t
        ≡ (is_session_text (session_of (members_of object.now)) t || has sessions.old t)) }
{
    let holder = read_holder(alloc, object, names)?;
    let (roles, session) = match read_further(alloc, object, sessions) {
        Ok(further) => further,
        Err(fault) => {
            drop(holder);
            return Err(fault);
        }
    };
    let ConfigRole { name, channels } = holder;
    Ok(ConfigUser {
        name,
        channels,
        roles,
        session,
    })
}

fn read_object<'a>(
    alloc: Global,
    object: &Object<'_, 'a>,
    names: &mut Seen<'a>,
    sessions: &mut Seen<'a>,
) -> Result<ConfigUser, ConfigFault>
    ensures read { IsResultOf (user_object_fault object.now.path.now
        (has names.old) (has sessions.old) (members_of object.now))
        (λ user. user ≡ user_of (members_of object.now)) result }
    ensures names { OnOk result ((t : List ℕ)
        → has names.new t
        ≡ (bytes_eq (name_of (members_of object.now)) t || has names.old t)) }
    ensures sessions { OnOk result ((t : List ℕ)
        → has sessions.new t
        ≡ (is_session_text (session_of (members_of object.now)) t || has sessions.old t)) }
{
    let user = read_members(alloc, object, names, sessions)?;
    match object.only(alloc, &["name", "channels", "roles", "session"]) {
        Ok(()) => Ok(user),
        Err(fault) => {
            drop(user);
            Err(fault)
        }
    }
}

/// Reads the user at this place of the list.
fn read_user<'a>(
    alloc: Global,
    place: usize,
    value: &'a Value,
    names: &mut Seen<'a>,
    sessions: &mut Seen<'a>,
) -> Result<ConfigUser, ConfigFault>
    ensures read { IsResultOf
        (user_fault place (has names.old) (has sessions.old) (view value.now))
        (λ user. user ≡ user_in (view value.now)) result }
    ensures names { OnOk result ((t : List ℕ)
        → has names.new t
        ≡ (bytes_eq (user_in (view value.now)).name t || has names.old t)) }
    ensures sessions { OnOk result ((t : List ℕ)
        → has sessions.new t
        ≡ (has_session (user_in (view value.now)) t || has sessions.old t)) }
{
    let path = format!(in alloc; "/users/{place}")?;
    match value.as_object() {
        Some(members) => read_object(alloc, &Object::new(path.as_str(), members), names, sessions),
        None => Err(refuse_at(alloc, path.as_str(), ConfigWhy::Value)),
    }
}

fn read_items(alloc: Global, items: &[Value]) -> Result<ConfigUsers, ConfigFault>
    ensures { IsResultOf (users_fault [] (items_view items.now))
        (λ users. users ≡ users_of (items_view items.now)) result }
{
    let mut users = ConfigUsers::new(alloc);
    let mut names = BTreeMap::new(alloc);
    let mut sessions = BTreeMap::new(alloc);
    for item in items {
        let place = users.as_slice().len();
        let user = read_user(alloc, place, item, &mut names, &mut sessions)?;
        users.push(user)?;
    }
    Ok(users)
}

/// Reads the users of a configuration.
pub(crate) fn read_users(alloc: Global, object: &Object<'_, '_>) -> Result<ConfigUsers, ConfigFault>
    ensures { IsResultOf (users_test object.now.path.now (members_of object.now))
        (λ users. users ≡ users_of (member_items (codes "users") (members_of object.now))) result }
{
    let Some(value) = object.get("users") else {
        return Ok(ConfigUsers::new(alloc));
    };
    match value.as_array() {
        Some(items) => read_items(alloc, items.as_slice()),
        None => Err(object.refuse(alloc, "users", ConfigWhy::Value)),
    }
}
