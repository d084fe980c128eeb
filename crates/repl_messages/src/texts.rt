//! Texts of keys and revisions, and properties that are written.

ghost use Rattle.std.specs.Prelude.{◌≡◌, ◌++◌, ◌∷◌, [], ◌<◌, length, map, IfOk, OnOk, string_bytes};
ghost use Rattle.std.specs.List.{join_with_byte};
ghost use Rattle.blip_frame.specs.Props.{pairs_of};
ghost use Rattle.sg_names.specs.Key.{key_text};
ghost use Rattle.sg_names.specs.RevId.{rev_text};

use blip_frame::Prop;
use sg_history::{Key, RevId};
use sg_outside::Memory;
use std::alloc::Global;

/// The text of a key.
pub(crate) fn key_string(alloc: Global, key: &Key) -> Result<String, Memory>
    ensures { IfOk result (λ text. string_bytes text ≡ key_text key.now) }
{
    if key.by == key.seq {
        format!(in alloc; "{}", key.seq)
    } else {
        format!(in alloc; "{}:{}", key.by, key.seq)
    }
}

/// The text of a revision.
pub(crate) fn rev_string(alloc: Global, rev: &RevId) -> Result<String, Memory>
    ensures { IfOk result (λ text. string_bytes text ≡ rev_text rev.now) }
{
    format!(in alloc; "{}-{}", rev.generation, rev.digest.as_str())
}

/// The texts of revisions, with a comma between each two.
pub(crate) fn history_string(
    alloc: Global,
    first: &RevId,
    others: &[RevId],
) -> Result<String, Memory>
    ensures { IfOk result (λ text. string_bytes text
        ≡ join_with_byte 44 (map (λ r. rev_text r) (first.now ∷ others.now))) }
{
    let mut text = rev_string(alloc, first)?;
    for rev in others {
        push_further(alloc, &mut text, rev)?;
    }
    Ok(text)
}

/// Puts a comma and the revision's text at the end.
fn push_further(alloc: Global, text: &mut String, rev: &RevId) -> Result<(), Memory>
    ensures { OnOk result (string_bytes text.new ≡ string_bytes text.old ++ 44 ∷ rev_text rev.now) }
{
    text.push_str(",")?;
    text.push_str(rev_string(alloc, rev)?.as_str())
}

/// Puts a property at the end.
pub(crate) fn push_text(
    alloc: Global,
    props: &mut Vec<Prop>,
    key: &str,
    value: &str,
) -> Result<(), Memory>
    ensures { OnOk result (pairs_of props.new.items
        ≡ pairs_of props.old.items ++ (key.now, value.now) ∷ []) }
{
    let value = String::from_str(alloc, value)?;
    push(alloc, props, key, value)
}

/// The same, of a value that is there.
pub(crate) fn push(
    alloc: Global,
    props: &mut Vec<Prop>,
    key: &str,
    value: String,
) -> Result<(), Memory>
    ensures { OnOk result (pairs_of props.new.items
        ≡ pairs_of props.old.items ++ (key.now, string_bytes value) ∷ []) }
{
    let key = String::from_str(alloc, key)?;
    props.push(Prop { key, value })?;
    Ok(())
}
