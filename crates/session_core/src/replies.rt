//! Acts that answer a request.

ghost use Rattle.std.specs.Prelude.{◌≡◌, ◌≢◌, ◌++◌, ◌∷◌, [], IfOk, OnOk, if◌then◌else◌};
ghost use Rattle.repl_messages.specs.Answers.{answers_payload};
ghost use Rattle.repl_messages.specs.Checkpoints.{checkpoint_payload};
ghost use Rattle.session_core.specs.Acts as acts;
ghost use Rattle.session_core.specs.Acts.{error_of, reply_act, refusal_act, acceptance_act, outcome_act, checkpoint_act, set_act, answer_act, offer_act};

use crate::act::Act;
use crate::event::Event;
use blip_frame::{Kind, Payload};
use doc_board::{Kept0, Outcome, SetAnswer, outcome_error};
use repl_messages::{
    Asked, ErrorKind, RequestFault, Version, write_answers, write_changes, write_checkpoint,
    write_error, write_ok,
};
use sg_history::Row;
use sg_outside::Memory;
use std::alloc::{AllocError, Global};

/// Who is answered: the number of a request and its marks.
#[derive(Clone, Copy, PartialEq, Eq)]
pub struct Asker {
    pub number: u64,
    pub urgent: bool,
    pub no_reply: bool,
}

/// What a request is answered by.
#[derive(Clone, Copy, PartialEq, Eq)]
pub enum Awaited {
    /// What is known of the revisions that it offers, by proposeChanges or by changes.
    Asked { proposed: bool },
    /// The outcome of the revision that it proposes.
    Pushed,
    /// The checkpoint that it asks for.
    Got,
    /// What became of the checkpoint that it sets.
    Set,
}

impl Awaited {
    /// Whether revisions were offered by proposeChanges.
    fn is_proposed(self) -> bool
        ensures { result ≡ acts.is_proposed self }
    {
        match self {
            Awaited::Asked { proposed } => proposed,
            Awaited::Pushed | Awaited::Got | Awaited::Set => false,
        }
    }
}

/// The reply to a request; none where it wants none.
fn reply(alloc: Global, asker: Asker, kind: Kind, payload: Payload) -> Result<Vec<Act>, Memory>
    ensures { IfOk result (λ acts. acts.items ≡ reply_act asker kind payload) }
{
    let mut acts = Vec::new(alloc);
    if asker.no_reply {
        drop(payload);
        return Ok(acts);
    }
    acts.push(Act::Reply {
        number: asker.number,
        kind,
        urgent: asker.urgent,
        payload,
    })?;
    Ok(acts)
}

/// The reply that a request is refused.
pub(crate) fn refuse(alloc: Global, asker: Asker, error: ErrorKind) -> Result<Vec<Act>, Memory>
    ensures { IfOk result (λ acts. acts.items ≡ refusal_act asker error) }
{
    let payload = write_error(alloc, &error);
    drop(error);
    reply(alloc, asker, Kind::Err, payload?)
}

/// The empty reply.
pub(crate) fn accept(alloc: Global, asker: Asker) -> Result<Vec<Act>, Memory>
    ensures { IfOk result (λ acts. acts.items ≡ acceptance_act asker) }
{
    reply(alloc, asker, Kind::Rpy, write_ok(alloc))
}

/// The error by which a message that is no known request is refused.
pub(crate) fn error_of_fault(fault: RequestFault) -> Result<ErrorKind, Memory>
    ensures ok { IfOk result (λ error. error ≡ error_of fault) }
    ensures known { IfOk result (λ _. fault ≢ RequestFault.Memory) }
{
    match fault {
        RequestFault::Bad400 { field } => Ok(ErrorKind::Bad400 { field }),
        RequestFault::LowForm400 => Ok(ErrorKind::LowForm400),
        RequestFault::Unknown404 => Ok(ErrorKind::NoHandler404),
        RequestFault::Memory => Err(AllocError),
    }
}

/// The reply to offered revisions.
fn answer_offers(
    alloc: Global,
    asker: Asker,
    proposed: bool,
    asked: &Asked,
) -> Result<Vec<Act>, Memory>
    ensures { IfOk result (λ acts. acts.items
        ≡ reply_act asker Kind.Rpy (answers_payload asked.now.answers proposed)) }
{
    let payload = write_answers(alloc, asked.answers.as_slice(), proposed)?;
    reply(alloc, asker, Kind::Rpy, payload)
}

/// The reply to a revision that was proposed.
fn answer_outcome(alloc: Global, asker: Asker, outcome: &Outcome) -> Result<Vec<Act>, Memory>
    ensures { IfOk result (λ acts. acts.items ≡ outcome_act asker outcome.now) }
{
    match outcome_error(alloc, outcome)? {
        Some(error) => refuse(alloc, asker, error),
        None => accept(alloc, asker),
    }
}

/// The reply that a checkpoint has this number, with its body where it was asked for.
fn answer_checkpoint(alloc: Global, asker: Asker, rev: u64, body: &[u8]) -> Result<Vec<Act>, Memory>
    ensures { IfOk result (λ acts. acts.items
        ≡ reply_act asker Kind.Rpy (checkpoint_payload rev body.now)) }
{
    let payload = write_checkpoint(alloc, rev, body)?;
    reply(alloc, asker, Kind::Rpy, payload)
}

/// The reply to a request for a checkpoint.
fn answer_kept(alloc: Global, asker: Asker, kept: &Kept0) -> Result<Vec<Act>, Memory>
    ensures { IfOk result (λ acts. acts.items ≡ checkpoint_act asker kept.now) }
{
    match kept {
        Kept0::Found { rev, body } => answer_checkpoint(alloc, asker, *rev, body.as_slice()),
        Kept0::Absent404 => refuse(alloc, asker, ErrorKind::NoCheckpoint404),
    }
}

/// The reply to a request that sets a checkpoint.
fn answer_set(alloc: Global, asker: Asker, answer: SetAnswer) -> Result<Vec<Act>, Memory>
    ensures { IfOk result (λ acts. acts.items ≡ set_act asker answer) }
{
    match answer {
        SetAnswer::Set { rev } => answer_checkpoint(alloc, asker, rev, &[]),
        SetAnswer::Conflict409 { current } => {
            refuse(alloc, asker, ErrorKind::Checkpoint409 { current })
        }
        SetAnswer::TooLarge413 { .. } => refuse(alloc, asker, ErrorKind::TooLarge413),
        SetAnswer::Full503 => refuse(alloc, asker, ErrorKind::CheckpointsFull503),
        SetAnswer::Memory => Err(AllocError),
    }
}

/// The reply to a request, by the answer to what was wanted for it.
pub(crate) fn answer(
    alloc: Global,
    asker: Asker,
    to: Awaited,
    event: &Event,
) -> Result<Vec<Act>, Memory>
    ensures { IfOk result (λ acts. acts.items ≡ answer_act asker to event.now) }
{
    match event {
        Event::Asked(asked) => answer_offers(alloc, asker, to.is_proposed(), asked),
        Event::Judged(outcome) => answer_outcome(alloc, asker, outcome),
        Event::Got(kept) => answer_kept(alloc, asker, kept),
        Event::Set(answer) => answer_set(alloc, asker, *answer),
        Event::Whole(_) | Event::Idle { .. } | Event::Fed(_) | Event::Bodies(_) => {
            Ok(Vec::new(alloc))
        }
    }
}

/// The next offer of a feed, whose rows these are: as many of them as a batch has. Where no rows are left
/// it is empty, and wants no reply.
fn offer(alloc: Global, rows: &[Row], batch: u64, version: Version) -> Result<Act, Memory>
    ensures { IfOk result (λ act. act ≡ offer_act rows.now batch version) }
{
    let offered = &rows[..rows.len().min(batch as usize)];
    Ok(Act::Request {
        payload: write_changes(alloc, offered, version)?,
        no_reply: rows.is_empty(),
    })
}

/// Puts the next offer at the end, unless there is nothing to put.
pub(crate) fn push_offer(
    alloc: Global,
    acts: &mut Vec<Act>,
    silent: bool,
    rows: &[Row],
    batch: u64,
    version: Version,
) -> Result<(), Memory>
    ensures { OnOk result (acts.new.items
        ≡ acts.old.items ++ (if silent then [] else offer_act rows.now batch version ∷ [])) }
{
    if silent {
        return Ok(());
    }
    acts.push(offer(alloc, rows, batch, version)?)?;
    Ok(())
}
