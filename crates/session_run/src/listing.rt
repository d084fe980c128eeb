//! The looks of a session, how many of those that it may take they are, and the sequences at which its revisions were stored.

ghost use Rattle.std.specs.Prelude.{◌≡◌, ◌≤◌, ◌<◌, ◌+◌, ◌++◌, [], true, false, OnOk};
ghost use Rattle.std.specs.Option.{option_to_list};
ghost use Rattle.repl_messages.specs.Looks as looked;
ghost use Rattle.session_core.specs.Fronts as fronts;
ghost use Rattle.session_run.specs.Spent as spending;
ghost use Rattle.session_run.specs.Spent.{most_looks};

use crate::ended::Sequences;
use doc_board::Outcome;
use repl_messages::Fed;
use session_core::{Event, Look, Looks, Purpose, Want};
use sg_outside::Memory;
use std::alloc::Global;
use std::marker::Model;

/// Both lists, and how many looks are spent.
#[derive(Drop)]
pub(crate) struct Listing {
    looks: Vec<Look>,
    stored: Vec<u64>,
    spent: u64,
}

/// How many looks a session takes at most.
const MOST_LOOKS: u64 = 1_000_000;

impl Model for Listing {
    ghost use Rattle.std.specs.Prelude.{◌-◌, vec_len, vec_capacity};
    ghost use Rattle.session_run.specs.inner.Listed.{Listed};

    ghost Value = { Listed };

    ghost view = { λ l. record {
      looks = l.looks.items;
      stored = l.stored.items;
      spent = l.spent;
      spare_looks = vec_capacity l.looks - vec_len l.looks;
      spare_stored = vec_capacity l.stored - vec_len l.stored;
    } };
}

impl Listing {
    /// None. Allocates nothing.
    pub(crate) fn new(alloc: Global) -> Listing
        ensures looks { result.looks ≡ [] }
        ensures stored { result.stored ≡ [] }
        ensures spent { result.spent ≡ 0 }
    {
        Listing {
            looks: Vec::new(alloc),
            stored: Vec::new(alloc),
            spent: 0,
        }
    }

    /// Makes room for one more of each.
    pub(crate) fn reserve(&mut self) -> Result<(), Memory>
        ensures looks { self.new.looks ≡ self.old.looks }
        ensures stored { self.new.stored ≡ self.old.stored }
        ensures spent { self.new.spent ≡ self.old.spent }
        ensures room_for_a_look { OnOk result (1 ≤ self.new.spare_looks) }
        ensures room_for_a_sequence { OnOk result (1 ≤ self.new.spare_stored) }
    {
        self.looks.reserve(1)?;
        self.stored.reserve(1)?;
        Ok(())
    }

    /// Whether this wants one more look than a session takes.
    pub(crate) fn lacks(&self, want: &Want) -> bool
        requires few { self.now.spent ≤ most_looks }
        ensures full { result ≡ true → self.now.spent ≡ most_looks }
        ensures look { result ≡ true → spending.looks_for want.now ≡ 1 }
        ensures left { result ≡ false → self.now.spent + spending.looks_for want.now ≤ most_looks }
    {
        self.spent + looks_for(want) > MOST_LOOKS
    }

    /// Lists the look by which an event answers, if it does by one, and the sequence of the revision that it stored, if it did; and
    /// counts the look, or the proposal.
    pub(crate) fn list(&mut self, event: &Event)
        requires few { self.old.spent ≤ most_looks }
        requires room_for_a_look { 1 ≤ self.old.spare_looks }
        requires room_for_a_sequence { 1 ≤ self.old.spare_stored }
        ensures looks { self.new.looks ≡ self.old.looks ++ fronts.look_of event.now }
        ensures stored { self.new.stored ≡ self.old.stored ++ fronts.stored_by event.now }
        ensures spent { self.new.spent ≡ self.old.spent + spending.spent_by event.now }
    {
        self.spent += spent_by(event);
        if let Some(look) = look_of(event) {
            self.looks.push_reserved(look);
        }
        if let Some(sequence) = stored_by(event) {
            self.stored.push_reserved(sequence);
        }
    }

    pub(crate) fn into_lists(self) -> (Looks, Sequences)
        ensures looks { result.0 ≡ self.looks }
        ensures stored { result.1 ≡ self.stored }
    {
        (
            Looks::from_vec(self.looks),
            Sequences::from_vec(self.stored),
        )
    }
}

/// The front by which a revision was judged, if it was by a board.
fn judged_at(outcome: &Outcome) -> Option<u64>
    ensures { option_to_list result ≡ fronts.judged_at outcome.now }
{
    match outcome {
        Outcome::Stored { at, .. }
        | Outcome::Known { at }
        | Outcome::UserGone401 { at }
        | Outcome::BadHistory400 { at }
        | Outcome::Conflict409 { at, .. }
        | Outcome::Denied403 { at, .. }
        | Outcome::Full503 { at, .. }
        | Outcome::LogFull509 { at, .. } => Some(*at),
        Outcome::Bad400 { .. } | Outcome::TooLarge413 { .. } | Outcome::Memory507 => None,
    }
}

/// The look by which an event answers, if it does by one.
fn look_of(event: &Event) -> Option<Look>
    ensures { option_to_list result ≡ fronts.look_of event.now }
{
    let (front, purpose) = match event {
        Event::Whole(_) | Event::Idle { .. } | Event::Got(_) | Event::Set(_) => return None,
        Event::Fed(fed) => (front_of(fed), Purpose::Feed),
        Event::Bodies(bodies) => (bodies.front, Purpose::Bodies),
        Event::Asked(asked) => (asked.front, Purpose::Ask),
        Event::Judged(outcome) => (judged_at(outcome)?, Purpose::Push),
    };
    Some(Look { front, purpose })
}

/// How many looks an event is the answer of.
fn spent_by(event: &Event) -> u64
    ensures spent { result ≡ spending.spent_by event.now }
    ensures few { result ≤ 1 }
{
    match event {
        Event::Whole(_) | Event::Idle { .. } | Event::Got(_) | Event::Set(_) => 0,
        Event::Fed(_) | Event::Bodies(_) | Event::Asked(_) | Event::Judged(_) => 1,
    }
}

/// How many looks are spent for what is wanted.
fn looks_for(want: &Want) -> u64
    ensures looks { result ≡ spending.looks_for want.now }
    ensures few { result ≤ 1 }
{
    match want {
        Want::GetCheckpoint { .. } | Want::SetCheckpoint { .. } => 0,
        Want::Feed { .. } | Want::Bodies { .. } | Want::Ask { .. } | Want::Propose { .. } => 1,
    }
}

/// The length of the log that a look for a feed was at.
fn front_of(fed: &Fed) -> u64
    ensures { result ≡ looked.front_of fed.now }
{
    match fed {
        Fed::Rows { front, .. } => *front,
        Fed::Future { front } => *front,
    }
}

/// The sequence of the revision that an event stored, if it did.
fn stored_by(event: &Event) -> Option<u64>
    ensures { option_to_list result ≡ fronts.stored_by event.now }
{
    match event {
        Event::Judged(Outcome::Stored { sequence, .. }) => Some(*sequence),
        _ => None,
    }
}
