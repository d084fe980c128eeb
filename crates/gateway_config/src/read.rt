//! A configuration, read from its file.

ghost use Rattle.std.specs.Prelude.{◌≡◌, ◌≢◌, ◌↔◌, [], codes, None, Some, Ok, Err, IsOk, IfOk, IfErr};
ghost use Rattle.std.specs.Arc.{arc_value};
ghost use Rattle.serde_json.specs.View.{view};
ghost use Rattle.sync_syntax.specs.Statements.{parsed};
ghost use Rattle.gateway_config.specs.Faults.{Fault, IsResultOf, NamesFault, config_fault, first_fault, members_fault, object_fault};
ghost use Rattle.gateway_config.specs.Members.{config_json};
ghost use Rattle.gateway_config.specs.inner.Objects.{HasSettings, first_tests, known_tests, members_of, principal_tests};
ghost use Rattle.gateway_config.specs.Values.{IsTextOf, Says, SaysIn, member_items, roles_of, sync_of, users_of};

use crate::config::{Config, ConfigRoles, ConfigUsers};
use crate::fault::ConfigFault;
use crate::object::{Object, refuse_at};
use crate::program::read_program;
use crate::role::read_roles;
use crate::settings::{Settings, read_settings};
use crate::user::read_users;
use serde_json::Value;
use sg_history::ConfigWhy;
use std::alloc::Global;
use std::sync::Arc;
use sync_resolve::Resolved;

/// Reads the members from `database` to `sync`.
fn read_first(
    alloc: Global,
    object: &Object<'_, '_>,
) -> Result<(Settings, Arc<Resolved>), ConfigFault>
    ensures { IsResultOf (first_fault (first_tests object.now.path.now (members_of object.now)))
        (λ p. HasSettings (members_of object.now) p.0
        × (parsed (sync_of (members_of object.now)) ≡ Ok (arc_value p.1))) result }
{
    let settings = read_settings(alloc, object)?;
    match read_program(alloc, object) {
        Ok(program) => Ok((settings, program)),
        Err(fault) => {
            drop(settings);
            Err(fault)
        }
    }
}

/// Reads the roles and the users.
fn read_principals(
    alloc: Global,
    object: &Object<'_, '_>,
) -> Result<(ConfigRoles, ConfigUsers), ConfigFault>
    ensures { IsResultOf (first_fault (principal_tests object.now.path.now (members_of object.now)))
        (λ p. (p.0 ≡ roles_of (member_items (codes "roles") (members_of object.now)))
        × (p.1 ≡ users_of (member_items (codes "users") (members_of object.now)))) result }
{
    let roles = read_roles(alloc, object)?;
    let users = read_users(alloc, object)?;
    Ok((roles, users))
}

fn read_known(alloc: Global, object: &Object<'_, '_>) -> Result<Config, ConfigFault>
    ensures { IsResultOf (first_fault (known_tests object.now.path.now (members_of object.now)))
        (λ config. Says (members_of object.now) config) result }
{
    let first = read_first(alloc, object)?;
    let (roles, users) = match read_principals(alloc, object) {
        Ok(principals) => principals,
        Err(fault) => {
            drop(first);
            return Err(fault);
        }
    };
    let (settings, program) = first;
    Ok(Config {
        database: settings.database,
        bind: settings.bind,
        accepts: settings.accepts,
        conflicts: settings.conflicts,
        program,
        roles,
        users,
    })
}

fn read_object(alloc: Global, object: &Object<'_, '_>) -> Result<Config, ConfigFault>
    ensures { IsResultOf (members_fault object.now.path.now (members_of object.now))
        (λ config. Says (members_of object.now) config) result }
{
    let config = read_known(alloc, object)?;
    match object.only(
        alloc,
        &[
            "database",
            "bind",
            "accepts",
            "conflicts",
            "sync",
            "roles",
            "users",
        ],
    ) {
        Ok(()) => Ok(config),
        Err(fault) => {
            drop(config);
            Err(fault)
        }
    }
}

/// What the bytes are read as.
fn value_of(alloc: Global, bytes: &[u8]) -> Result<Value, ConfigFault>
    ensures ok { IfOk result (λ value. config_json bytes.now ≡ Some (view value)) }
    ensures fault { IfErr result (λ e. NamesFault (config_fault bytes.now) e) }
{
    match Value::from_slice(alloc, bytes) {
        Ok(value) => Ok(value),
        Err(error) => {
            if error.is_memory() {
                Err(ConfigFault::Memory)
            } else {
                Err(refuse_at(alloc, "", ConfigWhy::NotJson))
            }
        }
    }
}

fn read_value(alloc: Global, value: &Value) -> Result<Config, ConfigFault>
    ensures { IsResultOf (object_fault [] ConfigWhy.NotObject (members_fault []) (view value.now))
        (λ config. SaysIn (view value.now) config) result }
{
    match value.as_object() {
        Some(members) => read_object(alloc, &Object::new("", members)),
        None => Err(refuse_at(alloc, "", ConfigWhy::NotObject)),
    }
}

/// Reads a configuration, or names its first bad member and why it is bad. The members are tested in
/// the order in which `Config` lists them (`program` is the member `sync`), those of a role or a user
/// likewise, and members of other names after them, in the order of their names' bytes. Of two
/// members of one name the last counts. `Memory` may come at any bytes.
pub fn read_config(alloc: Global, bytes: &[u8]) -> Result<Config, ConfigFault>
    // A configuration comes with what the bytes say, where they have no fault; else their first fault is named.
    ensures exact { IsResultOf (config_fault bytes.now)
        (λ config. IsTextOf bytes.now config) result }
    // But for `Memory`, each answer comes exactly where it is due.
    ensures accepted { result ≢ Err ConfigFault.Memory
        → (IsOk result ↔ (config_fault bytes.now ≡ None)) }
    ensures refused { (fault : Fault) → result ≢ Err ConfigFault.Memory
        → ((result ≡ Err (ConfigFault.Bad fault.path fault.why))
        ↔ (config_fault bytes.now ≡ Some fault)) }
{
    let value = value_of(alloc, bytes)?;
    let config = read_value(alloc, &value);
    drop(value);
    config
}
