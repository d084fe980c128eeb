//! Acts that answer the rows that a device wants.

ghost use Rattle.std.specs.Prelude.{◌≡◌, ◌≤◌, ◌++◌, ◌∷◌, [], length, IfOk, OnOk};
ghost use Rattle.session_core.specs.Acts.{body_act, body_acts, flagged_rows, flagged};

use crate::act::Act;
use repl_messages::{Body, rev_message, write_norev, write_rev};
use sg_history::{Row, Rows};
use sg_outside::Memory;
use std::alloc::Global;

/// What stands for a document that is gone.
const REMOVED: &[u8] = b"{\"_removed\":true}";

/// Copies of the rows of which the flag is set.
pub(crate) fn choose(alloc: Global, rows: &[Row], flags: &[bool]) -> Result<Rows, Memory>
    ensures value { IfOk result (λ some. some ≡ flagged_rows rows.now flags.now) }
    ensures bound { IfOk result (λ some. length some ≤ length rows.now) }
{
    let mut some = Rows::new(alloc);
    let mut rows = rows;
    let mut flags = flags;
    while let [row, later_rows @ ..] = rows {
        let [flag, later_flags @ ..] = flags else {
            return Ok(some);
        };
        push_flagged(alloc, *flag, row, &mut some)?;
        rows = later_rows;
        flags = later_flags;
    }
    Ok(some)
}

/// Puts a copy of the row at the end where its flag is set.
fn push_flagged(alloc: Global, flag: bool, row: &Row, some: &mut Rows) -> Result<(), Memory>
    ensures { OnOk result (some.new ≡ some.old ++ flagged flag row.now) }
{
    if flag {
        some.push(row.copy(alloc)?)?;
    }
    Ok(())
}

/// Copies of rows.
pub(crate) fn copy_rows(alloc: Global, rows: &[Row]) -> Result<Rows, Memory>
    ensures { IfOk result (λ copies. copies ≡ rows.now) }
{
    let mut copies = Rows::new(alloc);
    for row in rows {
        copies.push(row.copy(alloc)?)?;
    }
    Ok(copies)
}

/// The message for a row that the device wants.
fn body(alloc: Global, row: &Row, answer: Body) -> Result<Act, Memory>
    ensures { IfOk result (λ act. act ≡ body_act row.now answer) }
{
    match answer {
        Body::Rev { ancestors, bytes } => {
            let payload = rev_message(alloc, row, ancestors.as_slice(), bytes);
            drop(ancestors);
            Ok(Act::Request {
                payload: payload?,
                no_reply: false,
            })
        }
        Body::Removed => Ok(Act::Request {
            payload: write_rev(alloc, row, &[], REMOVED)?,
            no_reply: false,
        }),
        Body::NoRev => Ok(Act::Request {
            payload: write_norev(alloc, row)?,
            no_reply: true,
        }),
    }
}

/// Puts the message for a row that the device wants at the end.
fn push_body(alloc: Global, row: &Row, answer: Body, acts: &mut Vec<Act>) -> Result<(), Memory>
    ensures { OnOk result (acts.new.items ≡ acts.old.items ++ body_act row.now answer ∷ []) }
{
    acts.push(body(alloc, row, answer)?)?;
    Ok(())
}

/// The messages for rows that the device wants, by their answers.
pub(crate) fn bodies(alloc: Global, rows: &[Row], answers: Vec<Body>) -> Result<Vec<Act>, Memory>
    ensures { IfOk result (λ acts. acts.items ≡ body_acts rows.now answers.items) }
{
    let mut acts = Vec::new(alloc);
    let mut rows = rows;
    for answer in answers {
        let [row, later_rows @ ..] = rows else {
            return Ok(acts);
        };
        push_body(alloc, row, answer, &mut acts)?;
        rows = later_rows;
    }
    Ok(acts)
}
