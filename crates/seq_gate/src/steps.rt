//! The rule of a gate, and what each step on a word answers.

use crate::kept::Kept;
use crate::known::View;
use atomic_table::{Join, Play, Split, TableRule};
use std::marker::PhantomData;
use std::snapshot::Snapshot;

pub(crate) struct Rule<B> {
    of: PhantomData<B>,
}

impl<B: Kept> TableRule<Option<B>, View, Snapshot<B>> for Rule<B> {
    ghost use Rattle.std.specs.Prelude.{length};
    ghost use Rattle.seq_gate.specs.Rule.{IsSound, first_view};

    ghost holds = { λ about s. IsSound B.seen (length (B.seen about.value).log) s };

    ghost first = { λ about. first_view (B.seen about.value) };
}

pub(crate) struct Draw;

impl<B: Kept> Play<Option<B>, View> for Draw {
    ghost use Rattle.seq_gate.specs.Turns.{Draws};

    ghost then = { Draws };
}

pub(crate) struct DrawInTurn;

impl<B: Kept> Play<Option<B>, View> for DrawInTurn {
    ghost use Rattle.seq_gate.specs.Turns.{DrawsInTurn};

    ghost then = { DrawsInTurn };
}

pub(crate) struct TakeTicket;

impl<B: Kept> Play<Option<B>, View> for TakeTicket {
    ghost use Rattle.seq_gate.specs.Turns.{TakesTicket};

    ghost then = { TakesTicket };
}

pub(crate) struct Look;

impl<B: Kept> Play<Option<B>, View> for Look {
    ghost use Rattle.seq_gate.specs.Turns.{Looks};

    ghost then = { Looks B.seen };
}

pub(crate) struct Raise;

impl<B: Kept> Play<Option<B>, View> for Raise {
    ghost use Rattle.seq_gate.specs.Turns.{Raises};

    ghost then = { Raises B.seen };
}

pub(crate) struct PassOn;

impl<B: Kept> Play<Option<B>, View> for PassOn {
    ghost use Rattle.seq_gate.specs.Turns.{Passes};

    ghost then = { Passes };
}

pub(crate) struct LoadFront;

impl<B: Kept> Play<Option<B>, View> for LoadFront {
    ghost use Rattle.seq_gate.specs.Turns.{LoadsFront};

    ghost then = { LoadsFront };
}

pub(crate) struct LoadShare;

impl<B: Kept> Play<Option<B>, View> for LoadShare {
    ghost use Rattle.seq_gate.specs.Turns.{LoadsShare};

    ghost then = { LoadsShare };
}

pub(crate) struct Cut;

impl Split<View> for Cut {
    ghost use Rattle.seq_gate.specs.Turns.{view_split_from, view_split_off};

    ghost left = { view_split_from };

    ghost right = { view_split_off };
}

impl Join<View> for Cut {
    ghost use Rattle.seq_gate.specs.Rule.{spent};
    ghost use Rattle.seq_gate.specs.Turns.{view_joined};

    ghost both = { view_joined };

    ghost spent = { spent };
}
