//! What is kept by names.

ghost use Rattle.std.specs.Prelude.{◌≡◌, ℕ, List, Some, OnOk, OnErr, if◌then◌else◌};
ghost use Rattle.std.specs.BTreeMap.{get_by_text};
ghost use Rattle.std.specs.Str.{bytes_eq};

use sg_outside::Memory;
use std::alloc::Global;
use std::collections::BTreeMap;

/// Keeps something by a name, in place of what was kept by it before.
pub fn put<T: Drop>(
    alloc: Global,
    map: &mut BTreeMap<String, T>,
    name: &str,
    kept: T,
) -> Result<(), Memory>
    ensures ok { OnOk result ((other : List ℕ) → get_by_text map.new other
        ≡ (if bytes_eq name.now other then Some kept else get_by_text map.old other)) }
    ensures err { OnErr result ((other : List ℕ)
        → get_by_text map.new other ≡ get_by_text map.old other) }
{
    map.insert(String::from_str(alloc, name)?, kept)?;
    Ok(())
}
