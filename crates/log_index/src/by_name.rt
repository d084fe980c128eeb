//! Values that are kept by names.

ghost use Rattle.std.specs.Prelude.{◌≡◌, ℕ, List, Some, OnOk, OnErr, if◌then◌else◌};
ghost use Rattle.std.specs.BTreeMap.{get_by_text};
ghost use Rattle.std.specs.Str.{bytes_eq};

use std::alloc::{AllocError, Global};
use std::collections::BTreeMap;

/// Keeps a value of a name, in place of the one before.
pub fn put<T: Copy>(
    alloc: Global,
    map: &mut BTreeMap<String, T>,
    name: &str,
    value: T,
) -> Result<(), AllocError>
    ensures ok { OnOk result ((other : List ℕ) → get_by_text map.new other
        ≡ (if bytes_eq name.now other then Some value else get_by_text map.old other)) }
    ensures err { OnErr result ((other : List ℕ)
        → get_by_text map.new other ≡ get_by_text map.old other) }
{
    if let Some(kept) = map.get_mut(name) {
        *kept = value;
        return Ok(());
    }
    map.insert(String::from_str(alloc, name)?, value)?;
    Ok(())
}
