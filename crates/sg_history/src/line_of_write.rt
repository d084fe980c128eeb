//! The fields of a write's line, read as a write.

ghost use Rattle.std.specs.Prelude.{IfOk, IfErr};
ghost use Rattle.sg_history.specs.Line.{texts_of, ReadsWrite};
ghost use Rattle.sg_history.specs.Faults.{IsBadTextAmong, write_grammars};

use crate::entries::Write;
use crate::fault::LineFault;
use crate::field::{read_three, read_two};
use std::alloc::Global;

/// The fields of a write's line, after its kind.
#[derive(Clone, Copy)]
pub struct WriteTexts<'a> {
    pub doc: &'a [u8],
    pub rev: &'a [u8],
    pub ancestors: &'a [u8],
    pub deleted: &'a [u8],
    pub body: &'a [u8],
    pub by: &'a [u8],
    pub at: &'a [u8],
    pub winner: &'a [u8],
    pub channels: &'a [u8],
    pub grants: &'a [u8],
    pub roles: &'a [u8],
}

/// Reads the fields of a write, from the first one on.
pub fn read_write(alloc: Global, texts: WriteTexts<'_>) -> Result<Write, LineFault>
    ensures ok { IfOk result (λ write. ReadsWrite (texts_of texts.entry) write) }
    ensures reason { IfErr result (IsBadTextAmong 2 write_grammars (texts_of texts.entry)) }
{
    let revision = read_three(alloc, texts.doc, texts.rev, texts.ancestors, 2)?;
    // What was read is dropped by hand: on the way out of a `?` its proof would cost twice as much.
    let content = match read_three(alloc, texts.deleted, texts.body, texts.by, 5) {
        Ok(content) => content,
        Err(fault) => {
            drop(revision);
            return Err(fault);
        }
    };
    let place = match read_three(alloc, texts.at, texts.winner, texts.channels, 8) {
        Ok(place) => place,
        Err(fault) => {
            drop(revision);
            drop(content);
            return Err(fault);
        }
    };
    let (grants, roles) = match read_two(alloc, texts.grants, texts.roles, 11) {
        Ok(grants) => grants,
        Err(fault) => {
            drop(revision);
            drop(content);
            drop(place);
            return Err(fault);
        }
    };
    let (doc, rev, ancestors) = revision;
    let (deleted, body, by) = content;
    let (at, winner, channels) = place;
    Ok(Write {
        doc,
        rev,
        ancestors,
        deleted,
        body,
        by,
        at,
        winner,
        channels,
        grants,
        roles,
    })
}
