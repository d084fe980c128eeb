//! What is said of a configuration.

ghost use Rattle.std.specs.Prelude.{◌≡◌, ◌≤◌, length, IfOk, Some};
ghost use Rattle.serde_json.specs.View.{view};
ghost use Rattle.sg_outside.specs.Files.{largest_file};
ghost use Rattle.gateway_config.specs.Faults.{config_fault};
ghost use Rattle.config_check.specs.inner.Finding.{IsFoundIn};
ghost use Rattle.config_check.specs.Verdict.{IsRefusalOf, IsVerdict, function_text};

use crate::function::{FunctionFault, function_fault};
use gateway_config::{ConfigFault, read_config};
use serde_json::Value;
use sg_history::{ConfigWhy, Path};
use sg_outside::Memory;
use std::alloc::{AllocError, Global};

/// The sync function where a configuration has none.
const DEFAULT_SYNC: &str = "function(doc, oldDoc) { channel(doc.channels); }";

/// What is wrong with a configuration.
#[derive(Debug, Drop)]
pub struct Refusal {
    /// Its first bad member.
    pub path: Path,
    pub why: ConfigWhy,
    /// Where the text of the sync function is refused, and why, if that is what is bad.
    pub function: Option<FunctionFault>,
}

/// What is said of a configuration.
#[derive(Debug, Drop)]
pub enum Verdict {
    /// The gateway takes it.
    Good,
    /// It has more than 1,073,741,824 bytes.
    Long,
    Bad(Refusal),
}

/// The text of a configuration's sync function, which is tested where it has none too.
fn function_in(value: &Value) -> &str
    ensures { result.now ≡ function_text (view value.now) }
{
    match value.get("sync") {
        Some(function) => function.as_str().unwrap_or(DEFAULT_SYNC),
        None => DEFAULT_SYNC,
    }
}

/// The first fault of the sync function's text in what the bytes are read as.
fn function_fault_in(alloc: Global, bytes: &[u8]) -> Result<Option<FunctionFault>, Memory>
    ensures { IfOk result (λ found. IsFoundIn bytes.now found) }
{
    match Value::from_slice(alloc, bytes) {
        Ok(value) => {
            let found = function_fault(alloc, function_in(&value));
            drop(value);
            found
        }
        Err(error) => {
            if error.is_memory() {
                Err(AllocError)
            } else {
                Ok(None)
            }
        }
    }
}

/// The refusal of a configuration whose first bad member is this one.
fn refused(alloc: Global, bytes: &[u8], path: Path, why: ConfigWhy) -> Result<Refusal, Memory>
    ensures { config_fault bytes.now ≡ Some (record { path = path; why = why })
        → IfOk result (λ refusal. IsRefusalOf bytes.now refusal) }
{
    if why != ConfigWhy::Sync {
        return Ok(Refusal {
            path,
            why,
            function: None,
        });
    }
    match function_fault_in(alloc, bytes) {
        Ok(function) => Ok(Refusal {
            path,
            why,
            function,
        }),
        Err(error) => {
            drop(path);
            Err(error)
        }
    }
}

/// What is said of the bytes of a configuration.
pub(crate) fn verdict_of(alloc: Global, bytes: &[u8]) -> Result<Verdict, Memory>
    ensures { length bytes.now ≤ largest_file
        → IfOk result (λ verdict. IsVerdict bytes.now verdict) }
{
    match read_config(alloc, bytes) {
        Ok(config) => {
            drop(config);
            Ok(Verdict::Good)
        }
        Err(ConfigFault::Bad { path, why }) => Ok(Verdict::Bad(refused(alloc, bytes, path, why)?)),
        Err(ConfigFault::Memory) => Err(AllocError),
    }
}
