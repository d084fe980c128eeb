//! Names and sessions that earlier roles or users have.

ghost use Rattle.std.specs.Prelude.{◌≡◌, ◌||◌, ℕ, List, not, IfOk, OnOk};
ghost use Rattle.std.specs.Str.{bytes_eq};
ghost use Rattle.gateway_config.specs.inner.Seen.{has};

use sg_outside::Memory;
use std::collections::BTreeMap;

/// Texts that were seen.
pub(crate) type Seen<'a> = BTreeMap<&'a str, ()>;

/// Puts a text in, and says whether it was new.
pub(crate) fn note<'a>(seen: &mut Seen<'a>, text: &'a str) -> Result<bool, Memory>
    ensures new { IfOk result (λ is_new. is_new ≡ not (has seen.old text.now)) }
    ensures there { OnOk result ((t : List ℕ)
        → has seen.new t ≡ (bytes_eq text.now t || has seen.old t)) }
{
    Ok(seen.insert(text, ())?.is_none())
}
