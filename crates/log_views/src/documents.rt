//! Documents as they are.

ghost use Rattle.std.specs.Prelude.{◌≡◌, reverse, option_map, IfOk};
ghost use Rattle.std.specs.Option.{option_copied};
ghost use Rattle.sg_history.specs.Current as current;
ghost use Rattle.sg_history.specs.Current.{write_alone};
ghost use Rattle.log_index.specs.Index.{Indexes};
ghost use Rattle.log_views.specs.States.{since_in, state_in, winning};

use crate::at::write_at;
use crate::effects::{EffectsOf, effects_of};
use log_index::{LogIndex, laws};
use sg_history::{DocId, Entry, RevId, Write};
use sg_outside::Memory;

/// A document as it is: the sequence of its last write, the write of its winner, and the winner's
/// effects.
#[derive(Clone, Copy)]
pub struct DocState<'a> {
    pub seq: u64,
    pub winner: &'a Write,
    pub effects: EffectsOf<'a>,
}

/// What a document is, if it was written. Allocates nothing.
pub fn state<'a>(index: &LogIndex, entries: &'a [Entry], doc: &DocId) -> Option<DocState<'a>>
    requires { Indexes index.now (reverse entries.now) }
    ensures current { state_in result ≡ current.current (reverse entries.now) doc.now }
    ensures winner { option_map (λ s. s.winner.now) result
        ≡ write_alone (winning (reverse entries.now) doc.now) }
    ensures since { option_map (λ s. s.effects.since) result
        ≡ since_in (reverse entries.now) (winning (reverse entries.now) doc.now) }
{
    let document = index.document(doc)?;
    let winner = write_at(entries, document.winning)?;
    laws::marks();
    let marked = index.marked(document.winning, index.count());
    Some(DocState {
        seq: document.last,
        winner,
        effects: effects_of(entries, document.winning, winner, marked),
    })
}

/// The write of a document that has this revision, if it was written.
pub fn write_of_rev<'a>(
    index: &LogIndex,
    entries: &'a [Entry],
    doc: &DocId,
    rev: &RevId,
) -> Result<Option<&'a Write>, Memory>
    requires { Indexes index.now (reverse entries.now) }
    ensures { IfOk result (λ found. option_copied found
        ≡ write_alone (current.write_of_rev (reverse entries.now) doc.now rev.now)) }
{
    match index.revision(doc, rev)? {
        None => Ok(None),
        Some(seq) => Ok(write_at(entries, seq)),
    }
}
