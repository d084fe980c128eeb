//! Passes out of turn.

ghost use Rattle.std.specs.Prelude.{◌≡◌, ◌<◌, ◌≤◌, ◌^◌};
ghost use Rattle.seq_gate.specs.Passes.{drawn, with_lowest_front, split_from, split_off, joined_passes, HasEachOnce, IsNew, Finds};

use crate::gate::Gate;
use crate::kept::Kept;
use crate::known::View;
use crate::steps::{Cut, Draw, LoadFront, LoadShare, Look, TakeTicket};
use crate::turn::Turn;
use atomic_table::Seat;
use sg_history::Number;
use std::marker::Model;
use std::sync::Wait;

/// A pass of a gate. It borrows nothing, and one that is dropped takes its draws, numbers and rooms with it.
#[derive(Drop)]
pub struct Pass<B: Kept> {
    pub(crate) seat: Seat<Option<B>, View>,
    pub(crate) left: u64,
}

impl<B: Kept> Model for Pass<B> {
    ghost use Rattle.seq_gate.specs.Resting.{IsResting};
    ghost use Rattle.seq_gate.specs.Views.{PassView};

    ghost Value = { PassView };

    ghost view = { λ p. record { gate = p.seat.table_id; knows = p.seat.me.0.knows } };

    ghost invariant = { λ p. IsResting p.seat.me p.left };
}

impl<B: Kept> Pass<B> {
    /// How many draws are left.
    pub fn left(&self) -> u64
        ensures { result ≡ self.now.knows.left }
    {
        self.left
    }

    /// Draws a number, by one step. Waits for nobody, and allocates nothing.
    pub fn draw(&mut self, gate: &Gate<B>) -> Number
        requires here { self.old.gate ≡ gate.now }
        requires left { 0 < self.old.knows.left }
        ensures gate { self.new.gate ≡ self.old.gate }
        ensures knows { self.new.knows ≡ drawn self.old.knows result.value }
        ensures fresh { IsNew self.old.knows result.value }
    {
        let last = gate.table.shared.fetch_add::<Draw>(&mut self.seat, 0, 1);
        self.left -= 1;
        Number::new(last + 1)
    }

    /// The front, by one step. Waits for nobody, and allocates nothing.
    pub fn front(&mut self, gate: &Gate<B>) -> u64
        requires here { self.old.gate ≡ gate.now }
        ensures gate { self.new.gate ≡ self.old.gate }
        ensures knows { self.new.knows ≡ with_lowest_front self.old.knows result }
        ensures rises { self.old.knows.lowest_front ≤ result }
    {
        gate.table.shared.load::<LoadFront>(&mut self.seat, 3)
    }

    /// Takes a ticket, and waits until it is served. Of many that wait one looks for its ticket, and the others sleep. Allocates
    /// nothing.
    pub fn enter<R: Wait>(self, rt: &R, gate: &Gate<B>) -> Turn<B>
        requires here { self.gate ≡ gate.now }
        ensures gate { result.gate ≡ self.gate }
        ensures knows { result.knows ≡ self.knows }
        ensures finds { Finds self.knows result.found }
        ensures board { B.seen result.board ≡ result.found }
    {
        let Pass { mut seat, left } = self;
        let next = gate.next.lock(rt);
        let ticket = gate.table.shared.fetch_add::<TakeTicket>(&mut seat, 1, 1);
        let mut looks = 0;
        for _ in rt.forever() {
            let served = gate.table.shared.load::<Look>(&mut seat, 2);
            if served == ticket {
                let board = gate.table.shared.exchange(&mut seat, 0, None).unwrap();
                drop(next);
                return Turn { seat, left, board };
            }
            gate.wait(rt, &mut looks, served);
        }
        unreachable!()
    }

    /// Another pass, which gets 2^32 of the draws and knows what this one knows. Waits for nobody, and allocates nothing.
    pub fn split(&mut self, gate: &Gate<B>) -> Pass<B>
        requires here { self.old.gate ≡ gate.now }
        requires left { 2 ^ 33 ≤ self.old.knows.left }
        ensures gate { (self.new.gate ≡ self.old.gate) × (result.gate ≡ self.old.gate) }
        ensures knows { self.new.knows ≡ split_from self.old.knows }
        ensures other { result.knows ≡ split_off self.old.knows }
    {
        let seat = gate.table.shared.split_seat::<Cut>(&mut self.seat);
        self.left -= 1 << 32;
        Pass {
            seat,
            left: 1 << 32,
        }
    }

    /// Takes in another pass of the gate, with its draws and what it knows and holds. Waits for nobody, and allocates nothing.
    pub fn join(&mut self, gate: &Gate<B>, other: Pass<B>)
        requires here { self.old.gate ≡ gate.now }
        requires other { other.gate ≡ gate.now }
        ensures gate { self.new.gate ≡ self.old.gate }
        ensures knows { self.new.knows ≡ joined_passes self.old.knows other.knows }
        ensures each { HasEachOnce self.new.knows }
    {
        let Pass { seat, left } = other;
        gate.table.shared.join_seat::<Cut>(&mut self.seat, seat);
        gate.table.shared.load::<LoadShare>(&mut self.seat, 0);
        self.left += left;
    }
}
