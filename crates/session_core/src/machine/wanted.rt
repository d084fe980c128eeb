//! Replies of the device, which say what it wants of the rows on offer.

ghost use Rattle.std.specs.Prelude.{◌≡◌, ◌≤◌, ◌+◌, ◌&&◌, ◌==◌, length, Some, IsSome, IfOk, OnOk, OnErr};
ghost use Rattle.blip_mux.specs.Joining.{is_reply};
ghost use Rattle.session_core.specs.Running.{Running, rest};
ghost use Rattle.session_core.specs.State.{most_requests};
ghost use Rattle.session_core.specs.Transitions as does;
ghost use Rattle.session_core.specs.Transitions.{IsDone, going_on, most_ancestors, on_reply, on_wanted};

use super::{Core, Pending, plain, put, set};
use crate::act::{Act, Acts, Want};
use crate::bodies::{choose, copy_rows};
use crate::replies::push_offer;
use blip_frame::Kind;
use blip_mux::Message;
use repl_messages::read_wanted;
use sg_history::Rows;
use sg_outside::Memory;
use std::alloc::Global;

impl Core {
    pub(super) fn take_reply(&mut self, alloc: Global, message: &Message) -> Result<Acts, Memory>
        requires awaited { self.old.pending ≡ Pending.Nothing }
        requires room { self.old.requests ≤ most_requests }
        ensures ok { IfOk result
            (λ acts. IsDone (on_reply self.old message.now self.old.feed) self.new acts) }
        ensures few { OnOk result (self.new.requests ≤ self.old.requests + 1) }
        ensures err { OnErr result (self.new ≡ self.old) }
    {
        let Some(feed) = &self.feed else {
            return Ok(put(Vec::new(alloc)));
        };
        if feed.waits() || !is_answer(message, feed.number()) {
            return Ok(put(Vec::new(alloc)));
        }
        let offered = feed.offered();
        let wanted = read_wanted(alloc, message, offered.len() as u64)?;
        let rows = choose(alloc, offered, wanted.rows.as_slice())?;
        self.take_wanted(alloc, rows, wanted.max_history)
    }

    /// The rows on offer are answered, of which these are wanted.
    fn take_wanted(&mut self, alloc: Global, rows: Rows, most: u64) -> Result<Acts, Memory>
        requires awaited { self.old.pending ≡ Pending.Nothing }
        requires room { self.old.requests ≤ most_requests }
        requires runs { IsSome self.old.feed }
        requires few { length rows ≤ 10000 }
        ensures ok { IfOk result (λ acts. (r : Running) × (self.old.feed ≡ Some r)
            × ((message : Message) → most ≡ most_ancestors message
            → IsDone (on_wanted self.old message r rows) self.new acts)) }
        ensures few { OnOk result (self.new.requests ≤ self.old.requests + 1) }
        ensures err { OnErr result (self.new ≡ self.old) }
    {
        if rows.as_slice().is_empty() {
            return self.answered(alloc, Vec::new(alloc), 0);
        }
        let Some(feed) = &self.feed else {
            unreachable!();
        };
        let want = Want::Bodies {
            options: feed.options().copy(alloc)?,
            rows: copy_rows(alloc, rows.as_slice())?,
            most,
        };
        Ok(self.ask(alloc, Pending::Bodies(rows), want))
    }

    /// The rows on offer are answered, by these acts, which are so many requests.
    pub(super) fn answered(
        &mut self,
        alloc: Global,
        acts: Vec<Act>,
        count: u64,
    ) -> Result<Acts, Memory>
        requires runs { IsSome self.old.feed }
        requires room { self.old.requests ≤ most_requests }
        requires few { count ≤ 10000 }
        ensures ok { IfOk result (λ done. (r : Running) × (self.old.feed ≡ Some r)
            × IsDone (does.answer_done self.old acts.items (self.old.requests + count) (rest r))
            self.new done) }
        ensures few { OnOk result (self.new.requests ≤ self.old.requests + count + 1) }
        ensures err { OnErr result (self.new ≡ self.old) }
    {
        let Some(feed) = &self.feed else {
            unreachable!();
        };
        if feed.continuous() && feed.later().is_empty() {
            let options = feed.options().copy(alloc)?;
            let since = plain(feed.front());
            self.look_again(count);
            return Ok(Acts {
                puts: acts,
                want: Some(Want::Feed { since, options }),
            });
        }
        let mut acts = acts;
        let (later, batch) = (feed.later(), feed.batch());
        push_offer(alloc, &mut acts, false, later, batch, self.version)?;
        self.go_on_with_rest(count);
        Ok(put(acts))
    }

    /// The rows on offer are answered by so many requests, and the feed's next look is awaited.
    fn look_again(&mut self, count: u64)
        requires runs { IsSome self.old.feed }
        requires room { self.old.requests ≤ most_requests }
        requires few { count ≤ 10000 }
        ensures { (r : Running) × (self.old.feed ≡ Some r)
            × (self.new ≡ record self.old {
              requests = self.old.requests + count;
              feed = Some
                  (rest r);
              pending = Pending.More;
            }) }
    {
        let Some(feed) = self.feed.take() else {
            unreachable!();
        };
        self.requests += count;
        set(&mut self.feed, Some(feed.rest()));
        set(&mut self.pending, Pending::More);
    }

    /// The rows on offer are answered by so many requests, and the feed goes on.
    fn go_on_with_rest(&mut self, count: u64)
        requires runs { IsSome self.old.feed }
        requires room { self.old.requests ≤ most_requests }
        requires few { count ≤ 10000 }
        ensures { (r : Running) × (self.old.feed ≡ Some r)
            × (self.new ≡ going_on self.old (self.old.requests + count) (rest r)) }
    {
        let Some(feed) = self.feed.take() else {
            unreachable!();
        };
        set(&mut self.pending, Pending::Nothing);
        let requests = self.requests + count;
        self.settle(feed.rest(), requests);
    }
}

/// Whether a message answers the request of this number.
fn is_answer(message: &Message, number: u64) -> bool
    ensures { result ≡ (is_reply message.now.kind && message.now.number == number) }
{
    match message.kind {
        Kind::Rpy | Kind::Err => message.number == number,
        Kind::Msg | Kind::AckMsg | Kind::AckRpy => false,
    }
}
