//! The machine: its state, and which part of it takes an event.

ghost use Rattle.std.specs.Prelude.{◌≡◌, ◌≤◌, ◌<◌, ◌+◌, None, IsTrue, ◌↔◌, IfOk, OnOk, OnErr};
ghost use Rattle.sg_history.specs.Device as device;
ghost use Rattle.session_core.specs.Running as running;
ghost use Rattle.session_core.specs.State.{Machine, Awaits, IsSound, IsAwaited, new_machine, most_puts, most_requests};
ghost use Rattle.session_core.specs.Transitions.{DoesForEvent, IsDone, IsDoneBy, going_on, on_idle, refused, asks};

use crate::act::{Act, Acts, Want};
use crate::event::Event;
use crate::feed::Feed;
use crate::replies::{Asker, Awaited, refuse};
use blip_frame::Kind;
use blip_mux::Message;
use doc_board::SetAnswer;
use repl_messages::{ErrorKind, Fed, Version};
use sg_history::{Key, Name, Options, Rows};
use sg_outside::Memory;
use std::alloc::Global;
use std::marker::Model;

mod answers;
mod requests;
mod wanted;

/// How many requests have been put at most where an event is taken.
const MOST_REQUESTS: u64 = 9_223_372_036_854_775_808;

/// A request for a feed.
#[derive(Drop)]
pub struct Subscription {
    pub asker: Asker,
    pub since: Key,
    pub continuous: bool,
    pub batch: u64,
    pub options: Options,
}

/// Which answer is the next event.
#[derive(Drop)]
pub enum Pending {
    /// None: a message is, or an idle moment.
    Nothing,
    /// That of the first look for the feed that a request asks for.
    Feed(Subscription),
    /// That of the next look for the feed that runs.
    More,
    /// That of the look for the bodies of these rows.
    Bodies(Rows),
    /// That to which a request is then replied.
    Reply { asker: Asker, to: Awaited },
}

/// A session of one device. Contracts see its user, the version that it speaks, whether conflicts are off, how many
/// requests it has put, the feed that runs, and which answer is the next event.
#[derive(Drop)]
pub struct Core {
    user: Name,
    version: Version,
    strict: bool,
    requests: u64,
    feed: Option<Feed>,
    pending: Pending,
}

impl Model for Core {
    ghost use Rattle.session_core.specs.State.{Machine, IsSound};

    ghost Value = { Machine };

    ghost view = { λ c. record {
      user = c.user;
      version = c.version;
      strict = c.strict;
      requests = c.requests;
      feed = c.feed;
      pending = c.pending;
    } };

    ghost invariant = { λ c. IsSound c.feed c.pending };
}

impl Core {
    /// A session to which nothing has happened. Where it is strict, conflicts are off. Allocates nothing.
    pub fn new(user: Name, version: Version, strict: bool) -> Core
        ensures { result ≡ new_machine user version strict }
    {
        Core {
            user,
            version,
            strict,
            requests: 0,
            feed: None,
            pending: Pending::Nothing,
        }
    }

    /// The user whose device it is.
    pub fn user(&self) -> &Name
        ensures { result.now ≡ self.now.user }
    {
        &self.user
    }

    /// Whether conflicts are off.
    pub fn strict(&self) -> bool
        ensures { result ≡ self.now.strict }
    {
        self.strict
    }

    /// Whether a feed waits for the history to grow.
    pub fn waits(&self) -> bool
        ensures { result ≡ running.waits self.now.feed }
    {
        match &self.feed {
            Some(feed) => feed.waits(),
            None => false,
        }
    }

    /// Whether this event is one that is awaited, and there is room for the numbers of further requests.
    pub fn may_take(&self, event: &Event) -> bool
        ensures { IsTrue result ↔ (Awaits self.now event.now
            × (self.now.requests ≤ most_requests)) }
    {
        self.awaits(event) && self.requests <= MOST_REQUESTS
    }

    fn awaits(&self, event: &Event) -> bool
        ensures { IsTrue result ↔ Awaits self.now event.now }
    {
        match (&self.pending, event) {
            (Pending::Nothing, Event::Whole(_)) => true,
            (Pending::Nothing, Event::Idle { .. }) => self.waits(),
            (Pending::Feed(_), Event::Fed(_)) => true,
            (Pending::More, Event::Fed(Fed::Rows { .. })) => true,
            (Pending::Bodies(rows), Event::Bodies(bodies)) => {
                bodies.answers.as_slice().len() == rows.as_slice().len()
            }
            (Pending::Reply { to, .. }, _) => is_awaited(event, *to),
            _ => false,
        }
    }

    /// Takes one event, and says what is to be done. Out of memory the session stays as it was.
    pub fn step(&mut self, alloc: Global, event: Event) -> Result<Acts, Memory>
        requires awaited { Awaits self.old event }
        requires room { self.old.requests ≤ most_requests }
        ensures ok { IfOk result (λ acts. IsDoneBy
            (λ done. DoesForEvent self.old event done) self.new acts) }
        ensures few { OnOk result (self.new.requests ≤ self.old.requests + most_puts) }
        ensures err { OnErr result (self.new ≡ self.old) }
    {
        match event {
            Event::Whole(mut message) => {
                let acts = self.take_message(alloc, &mut message);
                drop(message);
                acts
            }
            Event::Idle { front } => self.take_idle(alloc, front),
            Event::Fed(fed) => self.take_fed(alloc, fed),
            Event::Bodies(bodies) => self.take_bodies(alloc, bodies),
            Event::Asked(_) | Event::Judged(_) | Event::Got(_) | Event::Set(_) => {
                self.take_answer(alloc, event)
            }
        }
    }

    fn take_message(&mut self, alloc: Global, message: &mut Message) -> Result<Acts, Memory>
        requires awaited { self.old.pending ≡ Pending.Nothing }
        requires room { self.old.requests ≤ most_requests }
        ensures ok { IfOk result (λ acts. IsDoneBy
            (λ done. DoesForEvent self.old (Event.Whole message.old) done) self.new acts) }
        ensures few { OnOk result (self.new.requests ≤ self.old.requests + 1) }
        ensures err { OnErr result (self.new ≡ self.old) }
    {
        match message.kind {
            Kind::Msg => {
                share_body(message)?;
                self.take_request(alloc, message)
            }
            Kind::Rpy | Kind::Err | Kind::AckMsg | Kind::AckRpy => self.take_reply(alloc, message),
        }
    }

    // ---- idle moments

    fn take_idle(&mut self, alloc: Global, front: u64) -> Result<Acts, Memory>
        requires awaited { self.old.pending ≡ Pending.Nothing }
        ensures ok { IfOk result
            (λ acts. IsDone (on_idle self.old front self.old.feed) self.new acts) }
        ensures few { OnOk result (self.new.requests ≡ self.old.requests) }
        ensures err { OnErr result (self.new ≡ self.old) }
    {
        let Some(feed) = &self.feed else {
            return Ok(put(Vec::new(alloc)));
        };
        if front <= feed.front() {
            return Ok(put(Vec::new(alloc)));
        }
        let want = Want::Feed {
            since: plain(feed.front()),
            options: feed.options().copy(alloc)?,
        };
        Ok(self.ask(alloc, Pending::More, want))
    }

    // ---- what the parts share

    /// Refuses a request.
    fn refuse(&mut self, alloc: Global, asker: Asker, error: ErrorKind) -> Result<Acts, Memory>
        requires awaited { self.old.pending ≡ Pending.Nothing }
        ensures ok { IfOk result (λ acts. IsDone (refused self.old asker error) self.new acts) }
        ensures same { self.new ≡ self.old }
    {
        let replies = refuse(alloc, asker, error)?;
        Ok(put(replies))
    }

    /// Awaits this answer, which the session is sound with.
    fn ask(&mut self, alloc: Global, pending: Pending, want: Want) -> Acts
        requires sound { IsSound self.old.feed pending }
        ensures { IsDone (asks self.old pending want) self.new result }
    {
        set(&mut self.pending, pending);
        Acts {
            puts: Vec::new(alloc),
            want: Some(want),
        }
    }

    /// Awaits the answer to which a request is then replied.
    fn ask_for(&mut self, alloc: Global, asker: Asker, to: Awaited, want: Want) -> Acts
        ensures { IsDone (asks self.old (Pending.Reply asker to) want) self.new result }
    {
        self.ask(alloc, Pending::Reply { asker, to }, want)
    }

    /// This feed goes on, where the gateway has put so many requests.
    fn settle(&mut self, feed: Feed, requests: u64)
        requires room { requests < 18446744073709551615 }
        ensures { self.new ≡ going_on self.old requests feed }
    {
        let (feed, requests) = feed.onward(requests);
        set(&mut self.feed, feed);
        self.requests = requests;
        set(&mut self.pending, Pending::Nothing);
    }
}

/// Lets what is read of a message share its body.
fn share_body(message: &mut Message) -> Result<(), Memory>
    ensures { message.new ≡ message.old }
{
    message.payload.body.share()
}

/// Sets this, and drops what was there.
fn set<T: Drop>(place: &mut T, value: T)
    ensures { place.new ≡ value }
{
    *place = value;
}

/// A plain number as a key.
fn plain(number: u64) -> Key
    ensures { result ≡ device.plain number }
{
    Key {
        by: number,
        seq: number,
    }
}

/// Whether a request is answered by this event.
fn is_awaited(event: &Event, to: Awaited) -> bool
    ensures { IsTrue result ↔ IsAwaited event.now to }
{
    match (event, to) {
        (Event::Asked(_), Awaited::Asked { .. }) => true,
        (Event::Judged(_), Awaited::Pushed) => true,
        (Event::Got(_), Awaited::Got) => true,
        (Event::Set(SetAnswer::Memory), _) => false,
        (Event::Set(_), Awaited::Set) => true,
        _ => false,
    }
}

/// These are put, and nothing is wanted.
fn put(puts: Vec<Act>) -> Acts
    ensures { (result.puts.items ≡ puts.items) × (result.want ≡ None) }
{
    Acts { puts, want: None }
}
