//! The messages that may send, each with its turn.

ghost use Rattle.std.specs.Prelude.{◌≡◌, ◌+◌, ◌<◌, ◌≤◌, ◌&&◌, ◌==◌, cond, Bool, true, false, ℕ, IfSome, IfNone, OnOk};
ghost use Rattle.blip_mux.specs.inner.Stamps.{times, IsLowest, same_flag};

use crate::stamps::Stamps;
use std::alloc::{AllocError, Global};

/// A message that may send: whether it is urgent, and its stamp.
#[derive(Clone, Copy)]
pub(crate) struct ReadyMessage {
    pub urgent: bool,
    pub stamp: u64,
}

/// The stamps of the urgent messages that may send, and of the others that may.
#[derive(Drop)]
pub(crate) struct Ready {
    urgent: Stamps,
    plain: Stamps,
}

impl Ready {
    ghost use Rattle.blip_mux.specs.inner.Ready.{stamps_in, count_in, room_in, IsFirst};

    /// No messages. Allocates nothing.
    pub(crate) fn new(alloc: Global) -> Ready
        ensures times { (u : Bool) (q : ℕ) → times q (stamps_in u result) ≡ 0 }
        ensures count { (u : Bool) → count_in u result ≡ 0 }
    {
        Ready {
            urgent: Stamps::new(alloc),
            plain: Stamps::new(alloc),
        }
    }

    /// Reserves room for so many urgent messages, and for so many others.
    pub(crate) fn reserve(&mut self, count: usize) -> Result<(), AllocError>
        ensures stamps { (u : Bool) → stamps_in u self.new ≡ stamps_in u self.old }
        ensures count { (u : Bool) → count_in u self.new ≡ count_in u self.old }
        ensures room { (u : Bool) → room_in u self.old ≤ room_in u self.new }
        ensures ok { OnOk result ((u : Bool) → count ≤ room_in u self.new) }
    {
        self.urgent.reserve(count)?;
        self.plain.reserve(count)
    }

    /// The first urgent message, or else the first of the others.
    pub(crate) fn first(&self) -> Option<ReadyMessage>
        ensures some { IfSome result (λ turn. IsFirst turn self.now) }
        ensures none { IfNone result ((u : Bool) (q : ℕ) → times q (stamps_in u self.now) ≡ 0) }
    {
        if let Some(stamp) = self.urgent.lowest() {
            return Some(ReadyMessage {
                urgent: true,
                stamp,
            });
        }
        match self.plain.lowest() {
            Some(stamp) => Some(ReadyMessage {
                urgent: false,
                stamp,
            }),
            None => None,
        }
    }

    /// Puts a message, for which there is room.
    pub(crate) fn put(&mut self, turn: ReadyMessage)
        requires { count_in turn.urgent self.old < room_in turn.urgent self.old }
        ensures times { (u : Bool) (q : ℕ) → times q (stamps_in u self.new)
            ≡ cond (same_flag turn.urgent u && turn.stamp == q) 1 0
            + times q (stamps_in u self.old) }
        ensures count { (u : Bool) → count_in u self.new
            ≡ cond (same_flag turn.urgent u) 1 0 + count_in u self.old }
        ensures room { (u : Bool) → room_in u self.old ≤ room_in u self.new }
    {
        if turn.urgent {
            self.urgent.put(turn.stamp);
        } else {
            self.plain.put(turn.stamp);
        }
    }

    /// Puts a message, for which there is room, if it may send.
    pub(crate) fn put_if(&mut self, may_send: bool, turn: ReadyMessage)
        requires { count_in turn.urgent self.old < room_in turn.urgent self.old }
        ensures times { (u : Bool) (q : ℕ) → times q (stamps_in u self.new)
            ≡ cond ((same_flag turn.urgent u && may_send) && turn.stamp == q) 1 0
            + times q (stamps_in u self.old) }
        ensures count { (u : Bool) → count_in u self.new
            ≡ cond (same_flag turn.urgent u && may_send) 1 0 + count_in u self.old }
        ensures room { (u : Bool) → room_in u self.old ≤ room_in u self.new }
    {
        if may_send {
            self.put(turn);
        }
    }

    /// Takes a message away that is the first of the urgent ones, or of the others.
    pub(crate) fn drop_first(&mut self, turn: ReadyMessage)
        requires { IsLowest turn.stamp (stamps_in turn.urgent self.old) }
        ensures times { (u : Bool) (q : ℕ) → times q (stamps_in u self.new)
            + cond (same_flag turn.urgent u && turn.stamp == q) 1 0
            ≡ times q (stamps_in u self.old) }
        ensures count { (u : Bool) → count_in u self.new
            + cond (same_flag turn.urgent u) 1 0 ≡ count_in u self.old }
        ensures room { (u : Bool) → room_in u self.new ≡ room_in u self.old }
    {
        if turn.urgent {
            self.urgent.drop_lowest(turn.stamp);
        } else {
            self.plain.drop_lowest(turn.stamp);
        }
    }
}
