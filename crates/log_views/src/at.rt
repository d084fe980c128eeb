//! The entries of sequences.

ghost use Rattle.std.specs.Prelude.{◌≡◌, ◌-◌};
ghost use Rattle.std.specs.List.{slice_get};
ghost use Rattle.std.specs.Option.{option_copied};
ghost use Rattle.log_views.specs.At as at;

use sg_history::{Entry, Write};

/// The entry of a sequence.
pub fn entry_at(entries: &[Entry], seq: u64) -> Option<&Entry>
    ensures { option_copied result ≡ slice_get entries.now (seq - 1) }
{
    entries.get(seq.saturating_sub(1) as usize)
}

/// The write of a sequence, if its entry is one.
pub fn write_at(entries: &[Entry], seq: u64) -> Option<&Write>
    ensures { option_copied result ≡ at.write_at entries.now seq }
{
    entry_at(entries, seq)?.as_write()
}
