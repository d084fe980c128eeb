//! The messages that wait, by their stamps.

ghost use Rattle.std.specs.Prelude.{◌≡◌, ◌∷◌, ◌++◌, ◌<◌, ◌≤◌, ◌&&◌, not, if◌then◌else◌, [], true, false, Some, None, List, ℕ, IsSome, IfSome, IfNone, OnOk, OnErr, option_map};
ghost use Rattle.std.specs.BTreeMap.{IsOrdered, insert_entry};
ghost use Rattle.std.specs.Ordering.{nat_cmp};
ghost use Rattle.blip_frame.specs.Frame.{has_checksum};
ghost use Rattle.blip_mux.specs.declared.class.Class.{Class as AClass};
ghost use Rattle.blip_mux.specs.inner.Class.{class_of, is_same};
ghost use Rattle.blip_mux.specs.inner.Entries.{look, with_message, without};
ghost use Rattle.blip_mux.specs.Sending.{back, chosen, unsent, without_piece, has_more, may_send, acked};
ghost use Rattle.blip_mux.specs.inner.Stamped.{stamp_in, Writes};

use crate::class::Class;
use crate::index::Index;
use crate::ready::{Ready, ReadyMessage};
use crate::waiting::WaitingMessage;
use blip_frame::{Crc, Kind};
use sg_outside::{Bytes, Memory};
use std::alloc::{AllocError, Global};
use std::collections::BTreeMap;

/// Messages by stamps, which rise in the order in which the messages were put or sent in part.
#[derive(Drop)]
pub(crate) struct Stamped {
    alloc: Global,
    messages: BTreeMap<u64, WaitingMessage>,
    index: Index,
    ready: Ready,
    next: u64,
}

impl Stamped {
    ghost use Rattle.blip_mux.specs.inner.Stamped.{listed, listed_without, message_at, stands, Keeps, HasRoom, IsNextReady, IsMoved};

    /// No messages. Allocates nothing.
    pub(crate) fn new(alloc: Global) -> Stamped
        ensures keeps { Keeps result }
        ensures none { result.messages.entries ≡ [] }
    {
        Stamped {
            alloc,
            messages: BTreeMap::new(alloc),
            index: Index::new(alloc),
            ready: Ready::new(alloc),
            next: 0,
        }
    }

    /// The stamp of a message.
    pub(crate) fn stamp_of(&self, class: Class, number: u64) -> Option<u64>
        ensures { result ≡ stands class number self.now }
    {
        self.index.get(class, number)
    }

    /// The turn of the message that sends next.
    pub(crate) fn next_turn(&self) -> Option<ReadyMessage>
        requires { Keeps self.now }
        ensures some { IfSome result (λ turn. IsNextReady turn self.now) }
        ensures none { IfNone result (chosen (listed self.now) ≡ None) }
    {
        self.ready.first()
    }

    /// A stamp above those of all messages. They begin at 0 again where no message waits.
    fn last_stamp(&self) -> u64
        requires { Keeps self.now }
        ensures { (q : ℕ) → result ≤ q → message_at self.now q ≡ None }
    {
        if self.messages.is_empty() {
            0
        } else {
            self.next
        }
    }

    /// Makes room for one more message, behind all others. Refuses, as out of memory, where the last
    /// stamp of all is reached.
    fn make_room(&mut self) -> Result<(), AllocError>
        requires { Keeps self.old }
        ensures keeps { Keeps self.new }
        ensures messages { self.new.messages.entries ≡ self.old.messages.entries }
        ensures index { self.new.index ≡ self.old.index }
        ensures ok { OnOk result (HasRoom self.new) }
    {
        self.next = self.last_stamp();
        if self.next == u64::MAX {
            return Err(AllocError);
        }
        self.ready.reserve(self.messages.len() + 1)
    }

    /// Puts a message behind all others, where there is room for it.
    fn put_last(&mut self, message: WaitingMessage) -> Result<(), AllocError>
        requires keeps { Keeps self.old }
        requires room { HasRoom self.old }
        requires alone { stands (class_of message.kind) message.number self.old ≡ None }
        ensures keeps { Keeps self.new }
        ensures ok { OnOk result (listed self.new ≡ listed self.old ++ message ∷ []) }
        ensures err { OnErr result (self.new.messages.entries ≡ self.old.messages.entries) }
    {
        let stamp = self.next;
        let may_send = message.may_send();
        let turn = ReadyMessage {
            urgent: message.is_urgent(),
            stamp,
        };
        insert_last(&mut self.messages, &mut self.index, stamp, message)?;
        self.ready.put_if(may_send, turn);
        self.next = stamp + 1;
        Ok(())
    }

    /// Puts a message last. Refuses, as out of memory, where the last stamp of all is reached.
    pub(crate) fn push(&mut self, message: WaitingMessage) -> Result<(), AllocError>
        requires keeps { Keeps self.old }
        requires alone { stands (class_of message.kind) message.number self.old ≡ None }
        ensures keeps { Keeps self.new }
        ensures ok { OnOk result (listed self.new ≡ listed self.old ++ message ∷ []) }
        ensures err { OnErr result (self.new.messages.entries ≡ self.old.messages.entries) }
    {
        self.make_room()?;
        self.put_last(message)
    }

    /// Writes the next frame of the message that sends next. Then it puts the message last where it has
    /// more, and else lets it go.
    pub(crate) fn send(
        &mut self,
        turn: ReadyMessage,
        crc: &mut Crc,
        out: &mut Bytes,
    ) -> Result<(), Memory>
        requires keeps { Keeps self.old }
        requires next { IsNextReady turn self.old }
        ensures keeps { Keeps self.new }
        ensures after { IfSome (message_at self.old turn.stamp)
            (λ w. OnOk result (listed self.new ≡ listed_without turn.stamp self.old ++ back w)) }
        ensures wrote { IfSome (message_at self.old turn.stamp)
            (λ w. OnOk result (Writes w crc.old.value crc.new.value out.old out.new)) }
        ensures err { OnErr result ((self.new.messages.entries ≡ self.old.messages.entries)
            × (crc.new ≡ crc.old) × (out.new ≡ out.old)) }
    {
        if self.messages[&turn.stamp].has_more() {
            self.send_part(turn, crc, out)
        } else {
            self.send_last(turn, crc, out)
        }
    }

    /// Writes the last frame of the message that sends next, and then lets the message go.
    fn send_last(
        &mut self,
        turn: ReadyMessage,
        crc: &mut Crc,
        out: &mut Bytes,
    ) -> Result<(), Memory>
        requires keeps { Keeps self.old }
        requires next { IsNextReady turn self.old }
        ensures keeps { Keeps self.new }
        ensures after { OnOk result (listed self.new ≡ listed_without turn.stamp self.old) }
        ensures wrote { IfSome (message_at self.old turn.stamp)
            (λ w. OnOk result (Writes w crc.old.value crc.new.value out.old out.new)) }
        ensures err { OnErr result ((self.new.messages.entries ≡ self.old.messages.entries)
            × (crc.new ≡ crc.old) × (out.new ≡ out.old)) }
    {
        write(&self.messages, turn.stamp, crc, out)?;
        self.let_go(turn);
        Ok(())
    }

    /// Lets the message go that sends next.
    fn let_go(&mut self, turn: ReadyMessage)
        requires keeps { Keeps self.old }
        requires next { IsNextReady turn self.old }
        ensures keeps { Keeps self.new }
        ensures after { self.new.messages.entries ≡ without turn.stamp self.old.messages.entries }
    {
        let message = &self.messages[&turn.stamp];
        self.index.remove(message.class(), message.number());
        remove(&mut self.messages, turn.stamp);
        self.ready.drop_first(turn);
    }

    /// Writes the next frame of the message that sends next, which has more, and then puts the message
    /// last.
    fn send_part(
        &mut self,
        turn: ReadyMessage,
        crc: &mut Crc,
        out: &mut Bytes,
    ) -> Result<(), Memory>
        requires keeps { Keeps self.old }
        requires next { IsNextReady turn self.old }
        requires more { IfSome (message_at self.old turn.stamp) (λ w. has_more w ≡ true) }
        ensures keeps { Keeps self.new }
        ensures after { IfSome (message_at self.old turn.stamp)
            (λ w. OnOk result (listed self.new
            ≡ listed_without turn.stamp self.old ++ without_piece w ∷ [])) }
        ensures wrote { IfSome (message_at self.old turn.stamp)
            (λ w. OnOk result (Writes w crc.old.value crc.new.value out.old out.new)) }
        ensures err { OnErr result ((self.new.messages.entries ≡ self.old.messages.entries)
            × (crc.new ≡ crc.old) × (out.new ≡ out.old)) }
    {
        let last = self.next;
        if last == u64::MAX {
            return Err(AllocError);
        }
        write_and_move(&mut self.messages, turn.stamp, last, crc, out, self.alloc)?;
        self.renew(turn);
        Ok(())
    }

    /// Gives the message that was moved behind all others its new stamp and turn.
    fn renew(&mut self, turn: ReadyMessage)
        requires moved { IsMoved turn self.old }
        requires stamp { self.old.next < 18446744073709551615 }
        ensures keeps { Keeps self.new }
        ensures messages { self.new.messages.entries ≡ self.old.messages.entries }
    {
        let stamp = self.next;
        let message = &self.messages[&stamp];
        let _ = self.index.put(message.class(), message.number(), stamp);
        self.ready.drop_first(turn);
        let last = ReadyMessage {
            urgent: turn.urgent,
            stamp,
        };
        self.ready.put_if(message.may_send(), last);
        self.next += 1;
    }

    /// How many bytes were sent of a message, where it waits.
    pub(crate) fn sent_of(&self, class: Class, number: u64) -> Option<u64>
        requires { Keeps self.now }
        ensures none { stands class number self.now ≡ None → result ≡ None }
        ensures some { (q : ℕ) → stands class number self.now ≡ Some q
            → result ≡ option_map (λ w. w.sent) (message_at self.now q) }
    {
        let Some(stamp) = self.index.get(class, number) else {
            return None;
        };
        match self.messages.get(&stamp) {
            Some(message) => Some(message.sent()),
            None => None,
        }
    }

    /// Notes that so many bytes of a message have come, of those that were sent.
    pub(crate) fn acked(&mut self, class: Class, number: u64, bytes: u64)
        requires keeps { Keeps self.old }
        requires sent { (q : ℕ) → stands class number self.old ≡ Some q
            → IfSome (message_at self.old q) (λ w. bytes ≤ w.sent) }
        ensures keeps { Keeps self.new }
        ensures none { stands class number self.old ≡ None
            → self.new.messages.entries ≡ self.old.messages.entries }
        ensures some { (q : ℕ) → stands class number self.old ≡ Some q
            → IfSome (message_at self.old q) (λ w. self.new.messages.entries
            ≡ with_message q self.old.messages.entries (acked bytes w)) }
    {
        let Some(stamp) = self.index.get(class, number) else {
            return;
        };
        if let Some(turn) = take_ack(&mut self.messages, stamp, bytes) {
            self.ready.put(turn);
        }
    }
}

/// Puts a message at a stamp, in the place of the one that stood there. Allocates nothing where one did.
fn put(
    messages: &mut BTreeMap<u64, WaitingMessage>,
    stamp: u64,
    message: WaitingMessage,
) -> Result<(), AllocError>
    ensures ordered { IsOrdered nat_cmp messages.new }
    ensures ok { OnOk result
        (messages.new.entries ≡ insert_entry nat_cmp messages.old.entries stamp message) }
    ensures absent { OnErr result (look messages.old.entries stamp ≡ None) }
    ensures err { OnErr result (messages.new.entries ≡ messages.old.entries) }
{
    messages.insert(stamp, message)?;
    Ok(())
}

/// Takes the message of a stamp away.
fn remove(messages: &mut BTreeMap<u64, WaitingMessage>, stamp: u64)
    ensures ordered { IsOrdered nat_cmp messages.new }
    ensures others { messages.new.entries ≡ without stamp messages.old.entries }
{
    messages.remove(&stamp);
}

/// Puts a message behind all others, and its stamp at its class and its number.
fn insert_last(
    messages: &mut BTreeMap<u64, WaitingMessage>,
    index: &mut Index,
    stamp: u64,
    message: WaitingMessage,
) -> Result<(), AllocError>
    requires ordered { IsOrdered nat_cmp messages.old }
    requires last { (q : ℕ) → stamp ≤ q → look messages.old.entries q ≡ None }
    ensures own { has_checksum message.kind ≡ true }
    ensures ordered { IsOrdered nat_cmp messages.new }
    ensures messages { OnOk result
        (messages.new.entries ≡ messages.old.entries ++ (stamp, message) ∷ []) }
    ensures index { OnOk result ((c : AClass) (n : ℕ) → stamp_in index.new c n
        ≡ (if is_same (class_of message.kind) message.number c n then Some stamp
        else stamp_in index.old c n)) }
    ensures err { OnErr result ((messages.new.entries ≡ messages.old.entries)
        × ((c : AClass) (n : ℕ) → stamp_in index.new c n ≡ stamp_in index.old c n)) }
{
    let class = message.class();
    let number = message.number();
    put(messages, stamp, message)?;
    if let Err(refused) = index.put(class, number, stamp) {
        remove(messages, stamp);
        return Err(refused);
    }
    Ok(())
}

/// Writes the next frame of the message of a stamp.
fn write(
    messages: &BTreeMap<u64, WaitingMessage>,
    stamp: u64,
    crc: &mut Crc,
    out: &mut Bytes,
) -> Result<(), Memory>
    requires { IsSome (look messages.now.entries stamp) }
    ensures wrote { IfSome (look messages.now.entries stamp)
        (λ w. OnOk result (Writes w crc.old.value crc.new.value out.old out.new)) }
    ensures err { OnErr result ((crc.new ≡ crc.old) × (out.new ≡ out.old)) }
{
    messages[&stamp].write_next(crc, out)
}

/// Writes the next frame of a message that has more, and then moves the message behind all others. Its
/// new place is made before the frame is written, so that all stays as it was at want of memory.
fn write_and_move(
    messages: &mut BTreeMap<u64, WaitingMessage>,
    from: u64,
    to: u64,
    crc: &mut Crc,
    out: &mut Bytes,
    alloc: Global,
) -> Result<(), Memory>
    requires ordered { IsOrdered nat_cmp messages.old }
    requires there { IsSome (look messages.old.entries from) }
    requires more { IfSome (look messages.old.entries from) (λ w. has_more w ≡ true) }
    requires last { (q : ℕ) → to ≤ q → look messages.old.entries q ≡ None }
    ensures ordered { IsOrdered nat_cmp messages.new }
    ensures moved { IfSome (look messages.old.entries from) (λ w. OnOk result (messages.new.entries
        ≡ without from messages.old.entries ++ (to, without_piece w) ∷ [])) }
    ensures wrote { IfSome (look messages.old.entries from)
        (λ w. OnOk result (Writes w crc.old.value crc.new.value out.old out.new)) }
    ensures err { OnErr result ((messages.new.entries ≡ messages.old.entries)
        × (crc.new ≡ crc.old) × (out.new ≡ out.old)) }
{
    make_place(messages, to, alloc)?;
    if let Err(refused) = write(messages, from, crc, out) {
        remove(messages, to);
        return Err(refused);
    }
    move_message(messages, from, to);
    Ok(())
}

/// Makes the place of a stamp, by a message that says nothing.
fn make_place(
    messages: &mut BTreeMap<u64, WaitingMessage>,
    stamp: u64,
    alloc: Global,
) -> Result<(), AllocError>
    ensures ordered { IsOrdered nat_cmp messages.new }
    ensures ok { OnOk result (messages.new.entries
        ≡ insert_entry nat_cmp messages.old.entries stamp (unsent 0 Kind.Msg false false [])) }
    ensures err { OnErr result (messages.new.entries ≡ messages.old.entries) }
{
    let empty = WaitingMessage::new(
        0,
        Kind::Msg,
        false,
        false,
        Bytes::new(alloc),
        Bytes::new(alloc),
    );
    put(messages, stamp, empty)
}

/// Moves a message whose next frame has gone to a place that was made for it.
fn move_message(messages: &mut BTreeMap<u64, WaitingMessage>, from: u64, to: u64)
    requires there { IsSome (look messages.old.entries from) }
    requires more { IfSome (look messages.old.entries from) (λ w. has_more w ≡ true) }
    requires place { IsSome (look (without from messages.old.entries) to) }
    ensures ordered { IsOrdered nat_cmp messages.new }
    ensures moved { IfSome (look messages.old.entries from) (λ w. messages.new.entries
        ≡ insert_entry nat_cmp (without from messages.old.entries) to (without_piece w)) }
{
    let mut message = messages.remove(&from).unwrap();
    message.go_on();
    let _ = put(messages, to, message);
}

/// Notes that so many bytes of the message of a stamp have come. Answers the turn that the message has
/// again, if it paused.
fn take_ack(
    messages: &mut BTreeMap<u64, WaitingMessage>,
    stamp: u64,
    bytes: u64,
) -> Option<ReadyMessage>
    requires { IfSome (look messages.old.entries stamp) (λ w. bytes ≤ w.sent) }
    ensures set { IfSome (look messages.old.entries stamp)
        (λ w. messages.new.entries ≡ with_message stamp messages.old.entries (acked bytes w)) }
    ensures turn { IfSome (look messages.old.entries stamp)
        (λ w. result ≡ (if not (may_send w) && may_send (acked bytes w)
        then Some (record { urgent = w.urgent; stamp = stamp }) else None)) }
    ensures ordered { IsOrdered nat_cmp messages.new }
{
    let Some(message) = messages.get_mut(&stamp) else {
        return None;
    };
    if message.acked(bytes) {
        return Some(ReadyMessage {
            urgent: message.is_urgent(),
            stamp,
        });
    }
    None
}
