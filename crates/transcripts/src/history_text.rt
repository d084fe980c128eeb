//! The transcript's last lines.

ghost use Rattle.std.specs.Prelude.{◌≡◌, ◌++◌, OnOk, codes};
ghost use Rattle.sg_history.specs.History.{history};
ghost use Rattle.sg_history.specs.Journal.{journal_text};

use sg_history::{Log, write_journal};
use sg_outside::{Bytes, Memory};

/// Puts the journal of a log's history at the end, behind its title.
pub fn write_history(log: &Log, out: &mut Bytes) -> Result<(), Memory>
    ensures { OnOk result (out.new
        ≡ out.old ++ codes "journal\n" ++ journal_text (history log.now)) }
{
    out.extend_from_slice(b"journal\n")?;
    write_journal(log, out)
}
