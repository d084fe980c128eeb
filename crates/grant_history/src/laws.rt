//! Laws of histories of grants.

ghost use Rattle.std.specs.Prelude.{List};
ghost use Rattle.sg_history.specs.declared.entries.Entry.{Entry};
ghost use Rattle.sg_history.specs.History.{Extends};
ghost use Rattle.grant_history.specs.Stands.{StandsFor};

use crate::history::GrantHistory;

/// A history of grants that stands for a log stands for each log that extends it.
pub fn extended(history: &GrantHistory)
    ensures { (earlier later : List Entry) → StandsFor history.now earlier
        → Extends earlier later → StandsFor history.now later }
{
    let _value = history;
}
