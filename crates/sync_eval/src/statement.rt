//! The statements that hold others, each rule by its own function. They take what runs a statement
//! inside as a parameter, so that each is proved by itself.

ghost use Rattle.std.specs.Prelude.{◌≡◌, ◌&&◌};
ghost use Rattle.sync_meaning.specs.Acts.{Does};
ghost use Rattle.sync_meaning.specs.Statements as spec;
ghost use Rattle.sync_meaning.specs.Statements.{run};
ghost use Rattle.sync_meaning.specs.Variables.{declared, started};
ghost use Rattle.sync_code.specs.Code.{source, source_or_none, fits};
ghost use Rattle.sync_code.specs.Steps.{begin_or_none, begin_or_none_fits, held_source, new_fits};
ghost use Rattle.sync_code.specs.Steps.{other_of, other_said, other_source, plain_or_none};
ghost use Rattle.sync_code.specs.Steps.{rounds_fit, step_fits, step_source, step_sources};
ghost use Rattle.sync_code.specs.Steps.{steps_fit};
ghost use Rattle.sync_eval.specs.inner.Nested.{DoesWhere};
ghost use Rattle.sync_eval.specs.inner.NestedSteps.{NestsStep};
ghost use Rattle.sync_eval.specs.inner.Rests as rests;

use crate::simple::{Parts, items_in, jump, place_of_simple};
use sqlite_items::Boxed;
use std::alloc::Global;
use sync_code::{Begin, Code, Held, Plain, Step};
use sync_meaning::{Completion, Rule, RuleKind, Slot, State, Stop, Value};
use sync_syntax::tree::Declares;
use sync_tokens::Place;

/// The place of a statement.
fn statement_place(step: &Step) -> Place
    ensures { result ≡ spec.statement_place (step_source step.now) }
{
    match step {
        Step::Block(place, _) => *place,
        Step::Empty(place) => *place,
        Step::Declare(found) => found.place,
        Step::If(place, _, _, _) => *place,
        Step::For(place, _, _, _, _) => *place,
        Step::ForOf(place, _, _, _, _) => *place,
        Step::Return(place, _) => *place,
        Step::Throw(place, _) => *place,
        Step::Break(place) => *place,
        Step::Continue(place) => *place,
        Step::Simple(found) => place_of_simple(found),
    }
}

/// What the rules are run with.
#[derive(Clone, Copy)]
pub(crate) struct Statements<F> {
    pub alloc: Global,
    /// How much deeper a statement or an expression may be.
    pub depth: u64,
    /// Runs a statement inside.
    pub inner: F,
}

impl<F: Fn(Global, u64, &mut State, &Step) -> Result<Completion, Stop>> Statements<F> {
    fn inner(&self, state: &mut State, step: &Step) -> Result<Completion, Stop>
        requires { NestsStep self.now.depth (F.pre self.now.inner) (F.post self.now.inner) }
        ensures { DoesWhere (step_fits step.now)
            (λ scope. run self.now.depth scope (step_source step.now)) state.old result state.new }
    {
        (self.inner)(self.alloc, self.depth, state, step)
    }

    fn parts(&self) -> Parts
        ensures { result.depth ≡ self.now.depth }
    {
        Parts {
            alloc: self.alloc,
            depth: self.depth,
        }
    }

    /// Statements in turn, as far as each ends normally; each sees what is declared before it.
    fn run_all(&self, state: &mut State, steps: &[Step]) -> Result<Completion, Stop>
        requires { NestsStep self.now.depth (F.pre self.now.inner) (F.post self.now.inner) }
        ensures { DoesWhere (steps_fit steps.now)
            (λ scope. spec.run_all self.now.depth (run self.now.depth) scope
            (step_sources steps.now)) state.old result state.new }
    {
        let mut left = steps;
        while let [step, rest @ ..] = left {
            let how = self.inner(state, step)?;
            if how != Completion::Normal {
                return Ok(how);
            }
            left = rest;
        }
        Ok(Completion::Normal)
    }

    #[tactic(auto, unfolding(sync_meaning::specs::Statements::block))]
    pub fn block(&self, state: &mut State, place: Place, steps: &[Step]) -> Result<Completion, Stop>
        requires { NestsStep self.now.depth (F.pre self.now.inner) (F.post self.now.inner) }
        ensures { DoesWhere (steps_fit steps.now)
            (λ scope. spec.block self.now.depth (run self.now.depth) scope place
            (step_sources steps.now)) state.old result state.new }
    {
        state.visit(place)?;
        self.run_all(state, steps)
    }

    /// The statement behind `else`, which sees what the first one declares.
    fn otherwise(
        &self,
        state: &mut State,
        first: &Step,
        other: &Option<Boxed<Step>>,
    ) -> Result<Completion, Stop>
        requires { NestsStep self.now.depth (F.pre self.now.inner) (F.post self.now.inner) }
        ensures { DoesWhere (other_said (step_source first.now) (other_of other.now))
            (λ scope. spec.otherwise self.now.depth (run self.now.depth) scope
            (step_source first.now) (other_source (other_of other.now)))
            state.old result state.new }
    {
        match other {
            Some(other) => self.inner(state, other.get()),
            None => Ok(Completion::Normal),
        }
    }

    #[tactic(auto, unfolding(sync_meaning::specs::Statements::choose))]
    fn choose(
        &self,
        state: &mut State,
        place: Place,
        condition: &Code,
        first: &Step,
        other: &Option<Boxed<Step>>,
    ) -> Result<Completion, Stop>
        requires { NestsStep self.now.depth (F.pre self.now.inner) (F.post self.now.inner) }
        ensures { DoesWhere (λ scope. fits condition.now scope && (step_fits first.now scope
            && other_said (step_source first.now) (other_of other.now) scope))
            (λ scope. spec.choose self.now.depth (run self.now.depth) scope place
            (source condition.now) (step_source first.now) (other_source (other_of other.now)))
            state.old result state.new }
    {
        state.visit(place)?;
        if self.parts().is_true(state, place, condition)? {
            self.inner(state, first)
        } else {
            self.otherwise(state, first, other)
        }
    }

    /// The rounds of a `for`.
    #[tactic(auto, unfolding(sync_meaning::specs::Statements::all_rounds))]
    fn all_rounds(
        &self,
        state: &mut State,
        place: Place,
        condition: &Option<Boxed<Code>>,
        step: &Option<Boxed<Plain>>,
        body: &Step,
    ) -> Result<Completion, Stop>
        requires { NestsStep self.now.depth (F.pre self.now.inner) (F.post self.now.inner) }
        ensures { DoesWhere (rounds_fit condition.now step.now (step_fits body.now))
            (λ scope. spec.all_rounds self.now.depth (run self.now.depth) scope place
            (source_or_none condition.now) (plain_or_none step.now) (step_source body.now))
            state.old result state.new }
    {
        for _round in 0..u64::from(state.visits) + 1 {
            if !self.parts().holds(state, place, condition)? {
                return Ok(Completion::Normal);
            }
            match self.inner(state, body)? {
                Completion::Break => return Ok(Completion::Normal),
                Completion::Return => return Ok(Completion::Return),
                Completion::Normal | Completion::Continue => {}
            }
            self.parts().step(state, step)?;
        }
        Err(Stop::Deny(Rule {
            kind: RuleKind::Fuel,
            place,
        }))
    }

    #[tactic(auto, unfolding(sync_meaning::specs::Statements::loop_while))]
    fn loop_while(
        &self,
        state: &mut State,
        place: Place,
        start: &Option<Boxed<Begin>>,
        condition: &Option<Boxed<Code>>,
        step: &Option<Boxed<Plain>>,
        body: &Step,
    ) -> Result<Completion, Stop>
        requires { NestsStep self.now.depth (F.pre self.now.inner) (F.post self.now.inner) }
        ensures { DoesWhere (λ scope. begin_or_none_fits start.now scope
            && rounds_fit condition.now step.now (step_fits body.now)
            (started (begin_or_none start.now) scope))
            (λ scope. spec.loop_while self.now.depth (run self.now.depth) scope place
            (begin_or_none start.now) (source_or_none condition.now) (plain_or_none step.now)
            (step_source body.now)) state.old result state.new }
    {
        state.visit(place)?;
        self.parts().start(state, start)?;
        self.all_rounds(state, place, condition, step, body)
    }

    /// A round for an item.
    fn round_of(
        &self,
        state: &mut State,
        slot: &Slot,
        body: &Step,
        item: &Value,
    ) -> Result<Completion, Stop>
        requires { NestsStep self.now.depth (F.pre self.now.inner) (F.post self.now.inner) }
        ensures { DoesWhere (step_fits body.now)
            (λ scope. rests.round_of self.now.depth scope slot.now.name slot.now.number item.now
            (step_source body.now)) state.old result state.new }
    {
        state.store(self.alloc, slot, item.share()?)?;
        self.inner(state, body)
    }

    /// A round for each item.
    fn each(
        &self,
        state: &mut State,
        slot: &Slot,
        body: &Step,
        items: &[Value],
    ) -> Result<Completion, Stop>
        requires { NestsStep self.now.depth (F.pre self.now.inner) (F.post self.now.inner) }
        ensures { DoesWhere (step_fits body.now)
            (λ scope. spec.each self.now.depth (run self.now.depth) scope slot.now.name
            slot.now.number (step_source body.now) items.now) state.old result state.new }
    {
        let mut left = items;
        while let [item, rest @ ..] = left {
            match self.round_of(state, slot, body, item)? {
                Completion::Break => return Ok(Completion::Normal),
                Completion::Return => return Ok(Completion::Return),
                Completion::Normal | Completion::Continue => {}
            }
            left = rest;
        }
        Ok(Completion::Normal)
    }

    #[tactic(auto, unfolding(sync_meaning::specs::Statements::loop_of))]
    fn loop_of(
        &self,
        state: &mut State,
        place: Place,
        held: &Held,
        expr: &Code,
        body: &Step,
        declares: Declares,
    ) -> Result<Completion, Stop>
        requires { NestsStep self.now.depth (F.pre self.now.inner) (F.post self.now.inner) }
        ensures { DoesWhere (λ scope. new_fits declares held.now scope && (fits expr.now scope
            && step_fits body.now (declared declares held.now.slot.name scope)))
            (λ scope. spec.loop_of self.now.depth (run self.now.depth) scope place declares
            (held_source held.now) (source expr.now) (step_source body.now))
            state.old result state.new }
    {
        state.visit(place)?;
        let value = self.parts().value(state, expr)?;
        let items = items_in(place, value)?;
        let how = self.each(state, &held.slot, body, items.get().as_slice());
        drop(items);
        how
    }

    #[tactic(auto, unfolding(sync_meaning::specs::Statements::run_statement))]
    fn opened(&self, state: &mut State, step: &Step) -> Result<Completion, Stop>
        requires { NestsStep self.now.depth (F.pre self.now.inner) (F.post self.now.inner) }
        ensures { DoesWhere (step_fits step.now)
            (λ scope. spec.run_statement self.now.depth (run self.now.depth) scope (step_source step.now))
            state.old result state.new }
    {
        match step {
            Step::Block(place, found) => self.block(state, *place, found.as_slice()),
            Step::Empty(place) => jump(state, *place, Completion::Normal),
            Step::Declare(found) => {
                self.parts().declare(state, found)?;
                Ok(Completion::Normal)
            }
            Step::If(place, condition, first, other) => {
                self.choose(state, *place, condition.get(), first.get(), other)
            }
            Step::For(place, start, condition, step, body) => {
                self.loop_while(state, *place, start, condition, step, body.get())
            }
            Step::ForOf(place, declares, held, expr, body) => {
                self.loop_of(state, *place, held, expr.get(), body.get(), *declares)
            }
            Step::Return(place, expr) => self.parts().returned(state, *place, expr),
            Step::Throw(place, expr) => self.parts().throw(state, *place, expr),
            Step::Break(place) => jump(state, *place, Completion::Break),
            Step::Continue(place) => jump(state, *place, Completion::Continue),
            Step::Simple(found) => {
                self.parts().simple(state, found)?;
                Ok(Completion::Normal)
            }
        }
    }
}

/// A statement, to this depth.
pub(crate) fn run(
    alloc: Global,
    depth: u64,
    state: &mut State,
    step: &Step,
) -> Result<Completion, Stop>
    ensures { DoesWhere (step_fits step.now)
        (λ scope. run depth scope (step_source step.now)) state.old result state.new }
{
    if depth == 0 {
        return Err(Stop::Deny(Rule {
            kind: RuleKind::Fuel,
            place: statement_place(step),
        }));
    }
    Statements {
        alloc,
        depth: depth - 1,
        inner: run,
    }
    .opened(state, step)
}
