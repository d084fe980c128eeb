//! Laws of joining and cutting. Each function says one, and does nothing.

ghost use Rattle.std.specs.Prelude.{◌≡◌, ◌≤◌, ◌++◌, ◌∷◌, true, false, [], length, take, reverse, nat_le, None, List, ℕ, Ok, IsOkAnd};
ghost use Rattle.std.specs.List.{list_any, AllByRecursion};
ghost use Rattle.blip_frame.specs.Frame.{FrameParts, has_checksum};
ghost use Rattle.blip_frame.specs.declared.frame.Kind.{Kind};
ghost use Rattle.blip_mux.specs.declared.message.Message.{Message};
ghost use Rattle.blip_mux.specs.declared.inbox.Taken.{Taken};
ghost use Rattle.blip_mux.specs.Remembered.{InboxState};
ghost use Rattle.blip_mux.specs.InboxStates.{new_inbox, expecting, answer_at, taken_after, taken_from, StandsFor};
ghost use Rattle.blip_mux.specs.Joining.{Event, came, expected, answer_in, joined, is_request, is_reply, acknowledge_after, most_held, held_in};
ghost use Rattle.blip_mux.specs.Owing.{bytes_in, answer_after, owes, NoneOwed};
ghost use Rattle.blip_mux.specs.Arriving.{Arrival, AreSentAfter, events_at};
ghost use Rattle.blip_mux.specs.Order.{messages_in, times_in, times_expected, beginnings, CountsFrom};
ghost use Rattle.blip_mux.specs.Apart.{HasCome, AreApart};
ghost use Rattle.blip_mux.specs.Sending.{Waiting, Sending, new_sending, IsWithinLimit, is_reply_to, acked_in, after_picked};
ghost use Rattle.blip_mux.specs.Cutting.{OutboxStep, with_message, AreCut, AreFull, ArePicked, AreAllPicked, frames_after, are_acknowledgements, bytes_sent, bytes_left, times_waiting};
ghost use Rattle.blip_mux.specs.Between.{Step, AreAllowed, sending_in, events_in, put_in, messages_of};

use blip_frame::laws::{frames, payloads, running_checksum, varints};

/// What a new inbox answers to events, one after another, is what joining all that came before says
/// of each.
pub fn joining()
    ensures { (events : List Event) → taken_from new_inbox events ≡ joined events }
{}

/// A state that says what the events before it gave still does once one more has come, and what it answers to a
/// frame is what joining says.
pub fn inbox_states()
    ensures new { StandsFor new_inbox [] }
    ensures came { (s : InboxState) (before : List Event) (f : FrameParts) → StandsFor s before
        → StandsFor (taken_after s f) (came f ∷ before) }
    ensures expected { (s : InboxState) (before : List Event) (number : ℕ) → StandsFor s before
        → StandsFor (expecting s number) (expected number ∷ before) }
    ensures answer { (s : InboxState) (before : List Event) (f : FrameParts) → StandsFor s before
        → answer_at s f ≡ answer_in before f }
{}

/// Each reply that waits is to a request that has come, from the beginning on, whatever comes and goes: so where a request
/// comes whole, no reply to it waits, and it may be put.
pub fn replies()
    ensures new { AreApart new_inbox new_sending }
    ensures taken { (s : InboxState) (out : Sending) (f : FrameParts) (taken : Taken)
        → answer_at s f ≡ Ok taken → AreApart s out → AreApart (taken_after s f) out }
    ensures whole { (s : InboxState) (out : Sending) (f : FrameParts) (message : Message)
        → answer_at s f ≡ Ok (Taken.Whole message) → is_request message.kind ≡ true → AreApart s out
        → (list_any (is_reply_to message.number) out.waiting ≡ false)
        × HasCome (taken_after s f) message.number }
    ensures put { (s : InboxState) (out : Sending) (w : Waiting) → AreApart s out
        → (is_reply w.kind ≡ true → HasCome s w.number) → AreApart s (with_message out w) }
    ensures acked { (s : InboxState) (out : Sending) (kind : Kind) (number bytes : ℕ)
        → AreApart s out
        → AreApart s (record out { waiting = acked_in kind number bytes out.waiting }) }
    ensures picked { (s : InboxState) (out : Sending) → AreApart s out
        → AreApart s (after_picked out) }
{}

/// The kind of an acknowledgement that has come, and of one that is owed, is an acknowledgement's.
pub fn acknowledgements()
    ensures acked { (s : InboxState) (f : FrameParts) (kind : Kind) (number bytes : ℕ)
        → answer_at s f ≡ Ok (Taken.Ack kind number bytes) → has_checksum kind ≡ false }
    ensures owed { (s : InboxState) (f : FrameParts) (kind : Kind) (number bytes : ℕ)
        → answer_at s f ≡ Ok (Taken.Owed kind number bytes) → has_checksum kind ≡ false }
{}

/// Of a message whose last acknowledgement was owed for one of its frames, the next is owed for the
/// first frame with which 50,000 bytes of it came since. The first one is so from the beginning, and
/// each counts all bytes so far.
pub fn owing()
    ensures first { (between : List FrameParts) (f : FrameParts) → NoneOwed [] between
        → owes (answer_after between f) ≡ nat_le acknowledge_after (bytes_in (f ∷ between)) }
    ensures next { (before between : List FrameParts) (last f : FrameParts)
        → owes (answer_after before last) ≡ true → NoneOwed (last ∷ before) between
        → owes (answer_after (between ++ last ∷ before) f)
        ≡ nat_le acknowledge_after (bytes_in (f ∷ between)) }
    ensures all { (before : List FrameParts) (f : FrameParts) (kind : Kind) (number bytes : ℕ)
        → answer_after before f ≡ Taken.Owed kind number bytes
        → bytes ≡ bytes_in (f ∷ before) }
{}

/// Where no frame is refused, messages that are not whole hold together at most 134,217,728, each its
/// bytes and 64.
pub fn held()
    ensures { (events : List Event) → (joined events).1 ≡ None
        → held_in (reverse events) ≤ most_held }
{}

/// Whatever is put, acknowledged and sent, of no message that waits more than 128,000 + 16,384 bytes
/// are sent and not acknowledged.
pub fn limit()
    ensures { (steps : List Step)
        → AllByRecursion IsWithinLimit (sending_in new_sending steps).waiting }
{}

/// Where no frame is refused, requests begin in the order 1, 2, 3 and so on. A request comes whole at
/// most once, and has no more replies than times that one was expected.
pub fn order()
    ensures beginnings { (events : List Event) → (joined events).1 ≡ None
        → CountsFrom 1 (beginnings [] events) }
    ensures once { (number : ℕ) (events : List Event)
        → times_in is_request number (messages_in (joined events).0) ≤ 1 }
    ensures replies { (number : ℕ) (events : List Event)
        → times_in is_reply number (messages_in (joined events).0) ≤ times_expected number events }
{}

/// Whatever is put and acknowledged, messages are cut in one way, and call after call gives the
/// frames of it: none is longer than 16,384 bytes, and each with more to come is as long.
pub fn cutting()
    ensures some { (s : Sending) (turns : List (List OutboxStep))
        → (frames : List FrameParts) × AreCut s turns frames }
    ensures one { (s : Sending) (turns : List (List OutboxStep)) (frames others : List FrameParts)
        → AreCut s turns frames → AreCut s turns others → frames ≡ others }
    ensures calls { (k : ℕ) (s : Sending) (frames : List FrameParts) (left : Sending)
        → AreAllPicked s frames left → frames_after k s ≡ take k frames }
    ensures full { (s : Sending) (frames : List FrameParts) (left : Sending)
        → ArePicked s frames left → AreFull frames }
{}

/// Of a request, and of a reply, of which no other of its number waits, the bytes that were picked and
/// those that are left are the ones that waited.
pub fn shares()
    ensures requests { (number : ℕ) (s : Sending) (frames : List FrameParts) (left : Sending)
        → ArePicked s frames left
        → are_acknowledgements s.acknowledgements ≡ true
        → times_waiting is_request number s.waiting ≤ 1
        → bytes_sent is_request number frames ++ bytes_left is_request number left.waiting
        ≡ bytes_left is_request number s.waiting }
    ensures replies { (number : ℕ) (s : Sending) (frames : List FrameParts) (left : Sending)
        → ArePicked s frames left
        → are_acknowledgements s.acknowledgements ≡ true
        → times_waiting is_reply number s.waiting ≤ 1
        → bytes_sent is_reply number frames ++ bytes_left is_reply number left.waiting
        ≡ bytes_left is_reply number s.waiting }
{}

/// What an outbox cuts, an inbox joins, however the frames of messages are interleaved: where messages
/// are put in their turn, no frame is refused, and of each number at which no message waits any more
/// the messages that come are those that were put, in order.
pub fn round_trip()
    ensures accepted { (steps : List Step) → AreAllowed new_sending [] steps
        → (joined (events_in new_sending steps)).1 ≡ None }
    ensures requests { (number : ℕ) (steps : List Step) → AreAllowed new_sending [] steps
        → times_waiting is_request number (sending_in new_sending steps).waiting ≡ 0
        → messages_of is_request number (messages_in (joined (events_in new_sending steps)).0)
        ≡ messages_of is_request number (put_in steps) }
    ensures replies { (number : ℕ) (steps : List Step) → AreAllowed new_sending [] steps
        → times_waiting is_reply number (sending_in new_sending steps).waiting ≡ 0
        → messages_of is_reply number (messages_in (joined (events_in new_sending steps)).0)
        ≡ messages_of is_reply number (put_in steps) }
{
    payloads();
    varints();
}

/// The same over bytes: where each frame is written in its place, the bytes are read as these frames,
/// and the messages that come are those that were put.
pub fn bytes()
    ensures read { (steps : List Step) (arrivals : List Arrival)
        → AreSentAfter [] arrivals (events_in new_sending steps)
        → events_at 0 arrivals ≡ Ok (events_in new_sending steps) }
    ensures accepted { (steps : List Step) (arrivals : List Arrival)
        → AreAllowed new_sending [] steps → AreSentAfter [] arrivals (events_in new_sending steps)
        → IsOkAnd (events_at 0 arrivals) (λ events. (joined events).1 ≡ None) }
    ensures requests { (number : ℕ) (steps : List Step) (arrivals : List Arrival)
        → AreAllowed new_sending [] steps → AreSentAfter [] arrivals (events_in new_sending steps)
        → times_waiting is_request number (sending_in new_sending steps).waiting ≡ 0
        → IsOkAnd (events_at 0 arrivals)
        (λ events. messages_of is_request number (messages_in (joined events).0)
        ≡ messages_of is_request number (put_in steps)) }
    ensures replies { (number : ℕ) (steps : List Step) (arrivals : List Arrival)
        → AreAllowed new_sending [] steps → AreSentAfter [] arrivals (events_in new_sending steps)
        → times_waiting is_reply number (sending_in new_sending steps).waiting ≡ 0
        → IsOkAnd (events_at 0 arrivals)
        (λ events. messages_of is_reply number (messages_in (joined events).0)
        ≡ messages_of is_reply number (put_in steps)) }
{
    frames();
    running_checksum();
    round_trip();
}
