ghost use Rattle.std.specs.Prelude.{◌≡◌, IfOk};

use crate::Memory;
use sqlite_items::Items;
use std::alloc::Global;

/// A longer list keeps its memory, so that two long ones are never held at once.
const SHORT: usize = 1000;

/// The same items, in no more memory than they take: a list grows to room for four at once, and a
/// text may be full of lists of one.
pub(crate) fn fitted<T: Drop>(alloc: Global, found: Items<T>) -> Result<Items<T>, Memory>
    ensures { IfOk result (λ same. same ≡ found) }
{
    if found.len() > SHORT {
        return Ok(found);
    }
    let mut same = Items::from_vec(Vec::with_capacity(alloc, found.len())?);
    same.append(found)?;
    Ok(same)
}
