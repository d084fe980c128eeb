//! What is wanted of a ground.

ghost use Rattle.std.specs.Prelude.{◌≡◌, ◌≤◌, ◌+◌, ◌*◌, true, Some, IfOk, OnErr};
ghost use Rattle.repl_messages.specs.Looks as looks;
ghost use Rattle.session_core.specs.Conduct.{WantsFor, is_answer, feed_front};
ghost use Rattle.session_core.specs.declared.event.Event.{Event};
ghost use Rattle.session_core.specs.declared.replies.Awaited.{Awaited};
ghost use Rattle.session_core.specs.State.{Awaits, IsAwaited};
ghost use Rattle.session_run.specs.Answered.{moment, HasReadGround, IsEventAnswered, IsSet};
ghost use Rattle.session_run.specs.Spent.{spent_by, looks_for, SpendsFor};
ghost use Rattle.write_path.specs.Origins.{Stays};

use doc_board::SetAnswer;
use repl_messages::{Offers, Revision};
use session_core::{Core, Event, Want};
use sg_history::{Client, Key, Name, Options, Rows};
use sg_outside::{Bytes, Memory};
use std::alloc::{AllocError, Global};
use write_path::{Ground, Resolved};

/// Has what is wanted of the ground; a revision is judged by the program. Out of memory it may have read, or not.
pub(crate) fn read<G: Ground>(
    alloc: Global,
    ground: &mut G,
    core: &Core,
    program: &Resolved,
    want: Want,
) -> Result<Event, Memory>
    requires wants { WantsFor core.now.feed core.now.pending (Some want) }
    requires front { feed_front core.now.feed ≤ G.lowest_front ground.old }
    requires draws { 2 * looks_for want ≤ G.left ground.old }
    ensures answered { IfOk result (λ event. IsEventAnswered
        (moment (G.read ground.old) (G.lowest_front ground.old) (G.recorded ground.old)
        (G.checkpoints ground.old) (G.own ground.old))
        core.now.user program.now core.now.strict (Some want) event
        (moment (G.read ground.new) (G.lowest_front ground.new) (G.recorded ground.new)
        (G.checkpoints ground.new) (G.own ground.new))) }
    ensures awaited { IfOk result (λ event. Awaits core.now event) }
    ensures answer { IfOk result (λ event. is_answer event ≡ true) }
    ensures err { OnErr result (HasReadGround
        (moment (G.read ground.old) (G.lowest_front ground.old) (G.recorded ground.old)
        (G.checkpoints ground.old) (G.own ground.old))
        (moment (G.read ground.new) (G.lowest_front ground.new) (G.recorded ground.new)
        (G.checkpoints ground.new) (G.own ground.new))) }
    ensures spends { SpendsFor (looks_for want) (G.origin ground.old) (G.origin ground.new)
        (G.left ground.old) (G.left ground.new) }
    ensures spent { IfOk result (λ event. spent_by event ≡ looks_for want) }
    ensures stays { OnErr result (Stays (G.origin ground.old) (G.origin ground.new)
        (G.left ground.old) (G.left ground.new)) }
{
    match want {
        Want::Feed { since, options } => {
            write_path::laws::was_read();
            let fed = ground.feed(alloc, core.user(), &since, &options);
            drop(options);
            Ok(Event::Fed(fed?))
        }
        Want::Bodies {
            options,
            rows,
            most,
        } => {
            let bodies = ground.bodies(alloc, core.user(), &options, rows.as_slice(), most);
            drop(options);
            drop(rows);
            Ok(Event::Bodies(bodies?))
        }
        Want::Ask { offers } => {
            let asked = ground.ask(alloc, offers.as_slice());
            drop(offers);
            Ok(Event::Asked(asked?))
        }
        Want::Propose { revision } => {
            let user = Some(core.user());
            let outcome = ground.propose(alloc, program, user, core.strict(), revision);
            Ok(Event::Judged(outcome))
        }
        Want::GetCheckpoint { client } => {
            let kept = ground.get_checkpoint(core.user(), &client);
            drop(client);
            Ok(Event::Got(kept?))
        }
        Want::SetCheckpoint { client, rev, body } => {
            let answer = set(ground, core.user(), &client, rev, body);
            drop(client);
            Ok(Event::Set(answer?))
        }
    }
}

/// Sets the checkpoint of a user's client. Out of memory none is set.
fn set<G: Ground>(
    ground: &mut G,
    user: &Name,
    client: &Client,
    rev: u64,
    body: Bytes,
) -> Result<SetAnswer, Memory>
    ensures set { IfOk result (λ answer. IsSet
        (moment (G.read ground.old) (G.lowest_front ground.old) (G.recorded ground.old)
        (G.checkpoints ground.old) (G.own ground.old)) user.now client.now rev body answer
        (moment (G.read ground.new) (G.lowest_front ground.new) (G.recorded ground.new)
        (G.checkpoints ground.new) (G.own ground.new))) }
    ensures awaited { IfOk result (λ answer. IsAwaited (Event.Set answer) Awaited.Set) }
    ensures err { OnErr result (HasReadGround
        (moment (G.read ground.old) (G.lowest_front ground.old) (G.recorded ground.old)
        (G.checkpoints ground.old) (G.own ground.old))
        (moment (G.read ground.new) (G.lowest_front ground.new) (G.recorded ground.new)
        (G.checkpoints ground.new) (G.own ground.new))) }
    ensures stays { Stays (G.origin ground.old) (G.origin ground.new)
        (G.left ground.old) (G.left ground.new) }
{
    let answer = ground.set_checkpoint(user, client, rev, body);
    match answer {
        SetAnswer::Memory => Err(AllocError),
        SetAnswer::Set { .. }
        | SetAnswer::Conflict409 { .. }
        | SetAnswer::TooLarge413 { .. }
        | SetAnswer::Full503 => Ok(answer),
    }
}
