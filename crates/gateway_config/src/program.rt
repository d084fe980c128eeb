//! The sync function of a configuration.

ghost use Rattle.std.specs.Prelude.{◌≡◌, true, false, codes, Ok, IfOk, MatchOption};
ghost use Rattle.std.specs.Arc.{arc_value};
ghost use Rattle.serde_json.specs.Find.{as_str, get_member};
ghost use Rattle.sync_syntax.specs.Statements as syntax;
ghost use Rattle.sync_resolve.specs.Resolving.{faults};
ghost use Rattle.gateway_config.specs.Faults.{IsResultOf, at_member, is_sound, no_faults, optional_why, function_fault};
ghost use Rattle.gateway_config.specs.inner.Objects.{members_of};
ghost use Rattle.gateway_config.specs.inner.Programs.{IsFoundIn};
ghost use Rattle.gateway_config.specs.Values.{sync_of};

use crate::fault::ConfigFault;
use crate::object::Object;
use sg_history::ConfigWhy;
use sg_outside::Memory;
use std::alloc::{AllocError, Global};
use std::sync::Arc;
use sync_resolve::{ResolveFault, Resolved, resolve};
use sync_syntax::{ParseFault, Program, parse};

/// The sync function where the configuration has none.
const DEFAULT_SYNC: &str = "function(doc, oldDoc) { channel(doc.channels); }";

/// The program that a text is.
fn parsed(alloc: Global, text: &str) -> Result<Option<Program>, Memory>
    ensures { IfOk result (λ found. IsFoundIn (syntax.parsed text.now) found) }
{
    match parse(alloc, text) {
        Ok(program) => Ok(Some(program)),
        Err(ParseFault::Bad(_)) => Ok(None),
        Err(ParseFault::Memory) => Err(AllocError),
    }
}

/// A program whose names all stand for something.
fn resolved(alloc: Global, program: Program) -> Result<Option<Resolved>, Memory>
    ensures { IfOk result (λ found. MatchOption found (no_faults (faults program) ≡ false)
        (λ r. (r ≡ program) × (no_faults (faults program) ≡ true))) }
{
    match resolve(alloc, program) {
        Ok(resolved) => Ok(Some(resolved)),
        Err(ResolveFault::Memory) => Err(AllocError),
        Err(_) => Ok(None),
    }
}

/// The program that a text is, where its names all stand for something.
fn sound(alloc: Global, text: &str) -> Result<Option<Resolved>, Memory>
    ensures { IfOk result (λ found. MatchOption found (is_sound (syntax.parsed text.now) ≡ false)
        (λ r. (syntax.parsed text.now ≡ Ok r) × (is_sound (syntax.parsed text.now) ≡ true))) }
{
    match parsed(alloc, text)? {
        Some(program) => resolved(alloc, program),
        None => Ok(None),
    }
}

fn read_text<'a>(alloc: Global, object: &Object<'_, 'a>) -> Result<&'a str, ConfigFault>
    ensures { IsResultOf (at_member object.now.path.now (codes "sync")
        (optional_why as_str (get_member (codes "sync") (members_of object.now))))
        (λ text. text.now ≡ sync_of (members_of object.now)) result }
{
    let Some(value) = object.get("sync") else {
        return Ok(DEFAULT_SYNC);
    };
    match value.as_str() {
        Some(text) => Ok(text),
        None => Err(object.refuse(alloc, "sync", ConfigWhy::Value)),
    }
}

/// Reads the sync function.
pub(crate) fn read_program(
    alloc: Global,
    object: &Object<'_, '_>,
) -> Result<Arc<Resolved>, ConfigFault>
    ensures { IsResultOf (function_fault object.now.path.now (members_of object.now))
        (λ program. syntax.parsed (sync_of (members_of object.now)) ≡ Ok (arc_value program))
        result }
{
    let text = read_text(alloc, object)?;
    match sound(alloc, text)? {
        Some(resolved) => Ok(Arc::new(alloc, resolved)?),
        None => Err(object.refuse(alloc, "sync", ConfigWhy::Sync)),
    }
}
