//! The replies to offered revisions.

ghost use Rattle.std.specs.Prelude.{◌≡◌, IfOk};
ghost use Rattle.serde_json.specs.View.{view};
ghost use Rattle.serde_json.specs.Written.{compact_text};
ghost use Rattle.repl_messages.specs.Answers as spec;
ghost use Rattle.repl_messages.specs.Answers.{answers_payload};

use crate::offers::OfferAnswer;
use crate::texts::rev_string;
use blip_frame::{Payload, Props};
use rev_tree::Leaf;
use serde_json::Value;
use sg_history::RevId;
use sg_outside::{Bytes, Memory};
use std::alloc::Global;

/// The reply to `proposeChanges` where `proposed`, else to `changes`: a JSON array of one item for each offer. Of a
/// change it is 0 where the revision is known, else the array of the leaves from which it may descend; of a proposal its
/// status, 304 where it is known, 0 where it may be proposed, else 409.
pub fn write_answers(
    alloc: Global,
    answers: &[OfferAnswer],
    proposed: bool,
) -> Result<Payload, Memory>
    ensures { IfOk result (λ payload. payload ≡ answers_payload answers.now proposed) }
{
    Ok(Payload {
        props: Props::new(alloc),
        body: answers_body(alloc, answers, proposed)?,
    })
}

fn answers_body(alloc: Global, answers: &[OfferAnswer], proposed: bool) -> Result<Bytes, Memory>
    ensures { IfOk result (λ body. body ≡ compact_text (spec.answers_data proposed answers.now)) }
{
    let value = answers_value(alloc, answers, proposed)?;
    let text = value.to_vec(alloc)?;
    Ok(Bytes::from_vec(text))
}

fn answers_value(alloc: Global, answers: &[OfferAnswer], proposed: bool) -> Result<Value, Memory>
    ensures { IfOk result (λ value. view value ≡ spec.answers_data proposed answers.now) }
{
    let mut values = Vec::new(alloc);
    for answer in answers {
        values.push(answer_value(alloc, answer, proposed)?)?;
    }
    Ok(Value::from(values))
}

fn answer_value(alloc: Global, answer: &OfferAnswer, proposed: bool) -> Result<Value, Memory>
    ensures { IfOk result (λ value. view value ≡ spec.answer_data proposed answer.now) }
{
    if proposed {
        Ok(Value::from(proposal_status(answer)))
    } else if answer.known {
        Ok(Value::from(0u64))
    } else {
        revs_value(alloc, answer.ancestors.as_slice())
    }
}

fn is_absent(winner: &Option<Leaf>) -> bool
    ensures { result ≡ spec.is_absent winner.now }
{
    match winner {
        None => true,
        Some(leaf) => leaf.deleted,
    }
}

fn proposal_status(answer: &OfferAnswer) -> u64
    ensures { result ≡ spec.proposal_status answer.now }
{
    if answer.known {
        304
    } else if answer.parent_wins || !answer.parent && is_absent(&answer.winner) {
        0
    } else {
        409
    }
}

fn revs_value(alloc: Global, revs: &[RevId]) -> Result<Value, Memory>
    ensures { IfOk result (λ value. view value ≡ spec.revs_data revs.now) }
{
    let mut values = Vec::new(alloc);
    for rev in revs {
        values.push(Value::from(rev_string(alloc, rev)?))?;
    }
    Ok(Value::from(values))
}
