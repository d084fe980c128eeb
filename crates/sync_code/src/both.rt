//! What is made in turn, of which each step may run out of memory.

ghost use Rattle.std.specs.Prelude.{◌≡◌, Ok, IfOk};

use crate::Memory;

/// Both, where the second was made; else the first is let go.
pub(crate) fn both<A: Drop, B: Drop>(first: A, second: Result<B, Memory>) -> Result<(A, B), Memory>
    ensures { IfOk result (λ made. (made.0 ≡ first) × (second ≡ Ok made.1)) }
{
    match second {
        Ok(second) => Ok((first, second)),
        Err(error) => Err(error),
    }
}
