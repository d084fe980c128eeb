//! What a configuration says of the database and of the door.

ghost use Rattle.std.specs.Prelude.{◌≡◌, []};
ghost use Rattle.serde_json.specs.View.{view};
ghost use Rattle.gateway_config.specs.Faults.{IsResultOf, accepts_fault, bind_fault, conflicts_fault, database_fault, first_fault};
ghost use Rattle.gateway_config.specs.Members as members;
ghost use Rattle.gateway_config.specs.inner.Objects.{HasSettings, limit_tests, members_of, setting_tests, text_tests};
ghost use Rattle.gateway_config.specs.Values.{accepts_of, bind_of, conflicts_of, database_of};

use crate::fault::ConfigFault;
use crate::object::Object;
use crate::texts::database_in;
use json_doc::DocText;
use serde_json::Value;
use sg_history::ConfigWhy;
use std::alloc::Global;

/// Where the door waits for callers, where the configuration says nothing of it.
const DEFAULT_BIND: &str = "127.0.0.1:4984";

/// How many callers are let in at most.
const MOST_ACCEPTS: u64 = 4294967295;

/// The members of a configuration that say nothing of users.
#[derive(Drop)]
pub(crate) struct Settings {
    pub database: DocText,
    pub bind: DocText,
    pub accepts: u64,
    pub conflicts: bool,
}

fn read_database(alloc: Global, object: &Object<'_, '_>) -> Result<DocText, ConfigFault>
    ensures { IsResultOf (database_fault object.now.path.now (members_of object.now))
        (λ database. database ≡ database_of (members_of object.now)) result }
{
    let Some(value) = object.get("database") else {
        return Err(object.refuse(alloc, "database", ConfigWhy::Missing));
    };
    match database_in(value) {
        Some(text) => Ok(DocText::from_str(alloc, text)?),
        None => Err(object.refuse(alloc, "database", ConfigWhy::Value)),
    }
}

fn read_bind(alloc: Global, object: &Object<'_, '_>) -> Result<DocText, ConfigFault>
    ensures { IsResultOf (bind_fault object.now.path.now (members_of object.now))
        (λ bind. bind ≡ bind_of (members_of object.now)) result }
{
    let Some(value) = object.get("bind") else {
        return Ok(DocText::from_str(alloc, DEFAULT_BIND)?);
    };
    match value.as_str() {
        Some(text) => Ok(DocText::from_str(alloc, text)?),
        None => Err(object.refuse(alloc, "bind", ConfigWhy::Value)),
    }
}

/// The count that a value is.
fn count_in(value: &Value) -> Option<u64>
    ensures { result ≡ members.count_of_value (view value.now) }
{
    let count = value.as_u64()?;
    if 1 <= count && count <= MOST_ACCEPTS {
        Some(count)
    } else {
        None
    }
}

fn read_accepts(alloc: Global, object: &Object<'_, '_>) -> Result<u64, ConfigFault>
    ensures { IsResultOf (accepts_fault object.now.path.now (members_of object.now))
        (λ accepts. accepts ≡ accepts_of (members_of object.now)) result }
{
    let Some(value) = object.get("accepts") else {
        return Ok(MOST_ACCEPTS);
    };
    match count_in(value) {
        Some(count) => Ok(count),
        None => Err(object.refuse(alloc, "accepts", ConfigWhy::Value)),
    }
}

fn read_conflicts(alloc: Global, object: &Object<'_, '_>) -> Result<bool, ConfigFault>
    ensures { IsResultOf (conflicts_fault object.now.path.now (members_of object.now))
        (λ conflicts. conflicts ≡ conflicts_of (members_of object.now)) result }
{
    let Some(value) = object.get("conflicts") else {
        return Ok(true);
    };
    match value.as_bool() {
        Some(conflicts) => Ok(conflicts),
        None => Err(object.refuse(alloc, "conflicts", ConfigWhy::Value)),
    }
}

fn read_texts(alloc: Global, object: &Object<'_, '_>) -> Result<(DocText, DocText), ConfigFault>
    ensures { IsResultOf (first_fault (text_tests object.now.path.now (members_of object.now)))
        (λ p. (p.0 ≡ database_of (members_of object.now))
        × (p.1 ≡ bind_of (members_of object.now))) result }
{
    let database = read_database(alloc, object)?;
    let bind = read_bind(alloc, object)?;
    Ok((database, bind))
}

fn read_limits(alloc: Global, object: &Object<'_, '_>) -> Result<(u64, bool), ConfigFault>
    ensures { IsResultOf (first_fault (limit_tests object.now.path.now (members_of object.now)))
        (λ p. (p.0 ≡ accepts_of (members_of object.now))
        × (p.1 ≡ conflicts_of (members_of object.now))) result }
{
    let accepts = read_accepts(alloc, object)?;
    let conflicts = read_conflicts(alloc, object)?;
    Ok((accepts, conflicts))
}

/// Reads the members from `database` to `conflicts`.
pub(crate) fn read_settings(alloc: Global, object: &Object<'_, '_>) -> Result<Settings, ConfigFault>
    ensures { IsResultOf (first_fault (setting_tests object.now.path.now (members_of object.now)))
        (λ settings. HasSettings (members_of object.now) settings) result }
{
    let (database, bind) = read_texts(alloc, object)?;
    let (accepts, conflicts) = read_limits(alloc, object)?;
    Ok(Settings {
        database,
        bind,
        accepts,
        conflicts,
    })
}
