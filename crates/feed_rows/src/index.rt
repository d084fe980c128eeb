//! The index of the pass over the log: where a document stands among others.

ghost use Rattle.std.specs.Prelude.{◌≡◌, ℕ, List, Some, OnOk, if◌then◌else◌};
ghost use Rattle.std.specs.Str.{bytes_eq};
ghost use Rattle.feed_rows.specs.inner.Index.{place_in};

use sg_history::DocId;
use std::alloc::AllocError;
use std::collections::BTreeMap;

/// The place of a document.
pub fn place_of(places: &BTreeMap<&str, usize>, name: &DocId) -> Option<usize>
    ensures { result ≡ place_in places.now name.now }
{
    places.get(name.as_str()).copied()
}

/// Keeps the place of a document.
pub fn add_place<'a>(
    places: &mut BTreeMap<&'a str, usize>,
    name: &'a DocId,
    place: usize,
) -> Result<(), AllocError>
    ensures { OnOk result ((other : List ℕ) → place_in places.new other
        ≡ (if bytes_eq name.now other then Some place else place_in places.old other)) }
{
    places.insert(name.as_str(), place)?;
    Ok(())
}
