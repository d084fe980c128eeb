//! Requests of the device.

ghost use Rattle.std.specs.Prelude.{◌≡◌, ◌≤◌, ◌<◌, Result, IfOk, OnOk, OnErr};
ghost use Rattle.repl_messages.specs.Requests.{IsBounded, IsAnswer};
ghost use Rattle.repl_messages.specs.declared.request.RequestFault.{RequestFault};
ghost use Rattle.session_core.specs.Transitions.{IsDone, IsDoneBy, on_sub_changes, on_changes, on_served, on_request};

use super::{Core, Pending, Subscription};
use crate::act::{Acts, Want};
use crate::replies::{Asker, Awaited, error_of_fault};
use blip_mux::Message;
use repl_messages::{ErrorKind, Offers, Request, read_request};
use sg_outside::Memory;
use std::alloc::Global;

impl Core {
    pub(super) fn take_request(&mut self, alloc: Global, message: &Message) -> Result<Acts, Memory>
        requires awaited { self.old.pending ≡ Pending.Nothing }
        ensures ok { IfOk result (λ acts. IsDoneBy
            (λ done. (read : Result Request RequestFault)
            × IsAnswer message.now.payload self.old.version read
            × (done ≡ on_request self.old message.now read)) self.new acts) }
        ensures few { OnOk result (self.new.requests ≡ self.old.requests) }
        ensures err { OnErr result (self.new ≡ self.old) }
    {
        let asker = Asker {
            number: message.number,
            urgent: message.urgent,
            no_reply: message.no_reply,
        };
        match read_request(alloc, message, self.version) {
            Ok(request) => self.take_served(alloc, asker, request),
            Err(fault) => self.refuse(alloc, asker, error_of_fault(fault)?),
        }
    }

    /// Takes a request that could be read.
    fn take_served(&mut self, alloc: Global, asker: Asker, request: Request) -> Result<Acts, Memory>
        requires awaited { self.old.pending ≡ Pending.Nothing }
        requires bounded { IsBounded request }
        ensures ok { IfOk result (λ acts. IsDone (on_served self.old asker request) self.new acts) }
        ensures few { OnOk result (self.new.requests ≡ self.old.requests) }
        ensures err { OnErr result (self.new ≡ self.old) }
    {
        match request {
            Request::SubChanges {
                since,
                continuous,
                batch,
                options,
            } => self.subscribe(
                alloc,
                Subscription {
                    asker,
                    since,
                    continuous,
                    batch,
                    options,
                },
            ),
            Request::Changes { offers } => self.take_changes(alloc, asker, offers),
            Request::ProposeChanges { offers } => {
                let to = Awaited::Asked { proposed: true };
                Ok(self.ask_for(alloc, asker, to, Want::Ask { offers }))
            }
            Request::Rev(revision) => {
                Ok(self.ask_for(alloc, asker, Awaited::Pushed, Want::Propose { revision }))
            }
            Request::GetCheckpoint { client } => {
                Ok(self.ask_for(alloc, asker, Awaited::Got, Want::GetCheckpoint { client }))
            }
            Request::SetCheckpoint { client, rev, body } => {
                let want = Want::SetCheckpoint { client, rev, body };
                Ok(self.ask_for(alloc, asker, Awaited::Set, want))
            }
        }
    }

    /// Takes a request that offers revisions by changes, which is refused where conflicts are off.
    fn take_changes(&mut self, alloc: Global, asker: Asker, offers: Offers) -> Result<Acts, Memory>
        requires awaited { self.old.pending ≡ Pending.Nothing }
        ensures ok { IfOk result
            (λ acts. IsDone (on_changes self.old.strict self.old asker (Want.Ask offers))
            self.new acts) }
        ensures few { OnOk result (self.new.requests ≡ self.old.requests) }
        ensures err { OnErr result (self.new ≡ self.old) }
    {
        if self.strict {
            return self.refuse(alloc, asker, ErrorKind::UsePropose409);
        }
        let to = Awaited::Asked { proposed: false };
        Ok(self.ask_for(alloc, asker, to, Want::Ask { offers }))
    }

    fn subscribe(&mut self, alloc: Global, asked: Subscription) -> Result<Acts, Memory>
        requires awaited { self.old.pending ≡ Pending.Nothing }
        requires some { 0 < asked.batch }
        requires bound { asked.batch ≤ 10000 }
        ensures ok { IfOk result
            (λ acts. IsDone (on_sub_changes self.old asked self.old.feed) self.new acts) }
        ensures few { OnOk result (self.new.requests ≡ self.old.requests) }
        ensures err { OnErr result (self.new ≡ self.old) }
    {
        if self.feed.is_some() {
            let asker = asked.asker;
            drop(asked);
            return self.refuse(alloc, asker, ErrorKind::FeedRuns409);
        }
        let options = match asked.options.copy(alloc) {
            Ok(options) => options,
            Err(fault) => {
                drop(asked);
                return Err(fault);
            }
        };
        let want = Want::Feed {
            since: asked.since,
            options,
        };
        Ok(self.ask(alloc, Pending::Feed(asked), want))
    }
}
