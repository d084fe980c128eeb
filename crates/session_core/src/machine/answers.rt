//! Answers of the history.

ghost use Rattle.std.specs.Prelude.{◌≡◌, ◌≤◌, ◌+◌, Some, IsSome, IfOk, OnOk, OnErr};
ghost use Rattle.session_core.specs.Running.{Running};
ghost use Rattle.session_core.specs.State.{Awaits, IsReply, most_puts, most_requests};
ghost use Rattle.session_core.specs.Transitions.{IsDone, AwaitsFirst, BeginsBy, going_on, on_next_look, on_fed, on_bodies, on_answer};

use super::{Core, Pending, put, set};
use crate::act::Acts;
use crate::bodies::bodies;
use crate::event::Event;
use crate::feed::Feed;
use crate::replies::{accept, answer, push_offer, refuse};
use repl_messages::{Bodies, ErrorKind, Fed};
use sg_history::Rows;
use sg_outside::Memory;
use std::alloc::Global;
use std::mem;

impl Core {
    pub(super) fn take_fed(&mut self, alloc: Global, fed: Fed) -> Result<Acts, Memory>
        requires awaited { Awaits self.old (Event.Fed fed) }
        requires room { self.old.requests ≤ most_requests }
        ensures ok { IfOk result
            (λ acts. IsDone (on_fed self.old fed self.old.pending) self.new acts) }
        ensures few { OnOk result (self.new.requests ≤ self.old.requests + 1) }
        ensures err { OnErr result (self.new ≡ self.old) }
    {
        match (&self.pending, fed) {
            (Pending::Feed(asked), Fed::Future { front }) => {
                let acts = refuse(alloc, asked.asker, ErrorKind::SincePast400 { front })?;
                set(&mut self.pending, Pending::Nothing);
                Ok(put(acts))
            }
            (Pending::Feed(asked), Fed::Rows { front, rows }) => {
                let mut acts = accept(alloc, asked.asker)?;
                let batch = asked.batch;
                push_offer(
                    alloc,
                    &mut acts,
                    false,
                    rows.as_slice(),
                    batch,
                    self.version,
                )?;
                self.begin(rows, front);
                Ok(put(acts))
            }
            (_, Fed::Rows { front, rows }) => self.take_more(alloc, rows, front),
            _ => unreachable!(),
        }
    }

    /// The feed that was asked for begins with these rows of its first look.
    fn begin(&mut self, rows: Rows, front: u64)
        requires awaited { AwaitsFirst self.old.pending }
        requires room { self.old.requests ≤ most_requests }
        ensures { BeginsBy self.old rows front self.old.pending self.new }
    {
        let Pending::Feed(asked) = mem::replace(&mut self.pending, Pending::Nothing) else {
            unreachable!();
        };
        let feed = Feed::new(rows, asked.batch, asked.options, asked.continuous, front);
        let requests = self.requests;
        self.settle(feed, requests);
    }

    /// The feed goes on with these rows of its next look.
    fn take_more(&mut self, alloc: Global, rows: Rows, front: u64) -> Result<Acts, Memory>
        requires awaited { self.old.pending ≡ Pending.More }
        requires room { self.old.requests ≤ most_requests }
        ensures ok { IfOk result
            (λ acts. IsDone (on_next_look self.old self.old.feed (Fed.Rows front rows)) self.new
            acts) }
        ensures few { OnOk result (self.new.requests ≤ self.old.requests + 1) }
        ensures err { OnErr result (self.new ≡ self.old) }
    {
        let Some(feed) = &self.feed else {
            unreachable!();
        };
        let silent = feed.caught_up() && feed.continuous() && rows.as_slice().is_empty();
        let batch = feed.batch();
        let mut acts = Vec::new(alloc);
        push_offer(
            alloc,
            &mut acts,
            silent,
            rows.as_slice(),
            batch,
            self.version,
        )?;
        self.go_on_with(rows, front);
        Ok(put(acts))
    }

    /// The feed has these rows of its next look, and goes on.
    fn go_on_with(&mut self, rows: Rows, front: u64)
        requires runs { IsSome self.old.feed }
        requires room { self.old.requests ≤ most_requests }
        ensures { (r : Running) × (self.old.feed ≡ Some r)
            × (self.new ≡ going_on self.old self.old.requests (record r {
              rows = rows;
              front =
                  front;
            })) }
    {
        let Some(feed) = self.feed.take() else {
            unreachable!();
        };
        set(&mut self.pending, Pending::Nothing);
        let requests = self.requests;
        self.settle(feed.with_rows(rows, front), requests);
    }

    pub(super) fn take_bodies(&mut self, alloc: Global, answers: Bodies) -> Result<Acts, Memory>
        requires awaited { Awaits self.old (Event.Bodies answers) }
        requires room { self.old.requests ≤ most_requests }
        ensures ok { IfOk result
            (λ acts. IsDone (on_bodies self.old answers self.old.pending) self.new acts) }
        ensures few { OnOk result (self.new.requests ≤ self.old.requests + most_puts) }
        ensures err { OnErr result (self.new ≡ self.old) }
    {
        let Pending::Bodies(rows) = &self.pending else {
            unreachable!();
        };
        let count = rows.as_slice().len() as u64;
        let acts = bodies(alloc, rows.as_slice(), answers.answers.into_vec())?;
        self.answered(alloc, acts, count)
    }

    /// Takes the answer by which a request is replied to.
    pub(super) fn take_answer(&mut self, alloc: Global, event: Event) -> Result<Acts, Memory>
        requires awaited { IsReply self.old.pending }
        ensures ok { IfOk result
            (λ acts. IsDone (on_answer self.old event self.old.pending) self.new acts) }
        ensures few { OnOk result (self.new.requests ≡ self.old.requests) }
        ensures err { OnErr result (self.new ≡ self.old) }
    {
        let Pending::Reply { asker, to } = &self.pending else {
            unreachable!();
        };
        let acts = answer(alloc, *asker, *to, &event);
        drop(event);
        let acts = acts?;
        set(&mut self.pending, Pending::Nothing);
        Ok(put(acts))
    }
}
