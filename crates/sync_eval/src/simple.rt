//! The parts of statements that hold no statement.

ghost use Rattle.std.specs.Prelude.{◌≡◌, ◌≢◌, ◌-ℤ◌, ◌&&◌, option_map};
ghost use Rattle.sync_values.specs.declared.fault.Stop as Stop;
ghost use Rattle.sync_values.specs.Values as values;
ghost use Rattle.sync_meaning.specs.Acts.{Does};
ghost use Rattle.sync_meaning.specs.Expressions.{value_to};
ghost use Rattle.sync_meaning.specs.Statements as spec;
ghost use Rattle.sync_code.specs.Code.{source, source_or_none, fits, fits_or_none, slot_fits};
ghost use Rattle.sync_eval.specs.inner.Nested.{DoesWhere};
ghost use Rattle.sync_eval.specs.inner.Rests as rests;
ghost use Rattle.sync_code.specs.Steps.{begin_or_none, begin_or_none_fits, held_source};
ghost use Rattle.sync_code.specs.Steps.{name_sources, names_fit, new_fits, opening_fits};
ghost use Rattle.sync_code.specs.Steps.{opening_source, plain_fits, plain_or_none};
ghost use Rattle.sync_code.specs.Steps.{plain_or_none_fits, plain_source};

use crate::expression::{Expressions, evaluated};
use crate::variables::{assign, read};
use json_doc::DocText;
use sqlite_items::{Boxed, Items};
use std::alloc::Global;
use sync_code::{Begin, Code, Held, Opening, Plain};
use sync_meaning::{
    Completion, FaultKind, Rule, RuleKind, Shared, State, Stop, Value, added, bounded, integer_in,
    subtracted, text_in, truth,
};
use sync_syntax::tree::{Declares, Writes};
use sync_tokens::Place;

/// The place of a simple statement.
pub(crate) fn place_of_simple(simple: &Plain) -> Place
    ensures { result ≡ spec.place_of_simple (plain_source simple.now) }
{
    match simple {
        Plain::Write(name, _, _) | Plain::Increment(name) | Plain::Decrement(name) => name.place,
        Plain::Value(place, _) => *place,
    }
}

/// The text that an object has under `forbidden`.
#[tactic(auto, unfolding(sync_meaning::specs::Statements::forbidden_in))]
fn forbidden_in(value: &Value) -> Option<&str>
    ensures { option_map (λ text. text.now) result ≡ spec.forbidden_in value.now }
{
    match value {
        Value::Object(members) => match members.get().last("forbidden") {
            Some(found) => text_in(found),
            None => None,
        },
        _ => None,
    }
}

/// What `throw` of a value does.
#[tactic(auto, unfolding(sync_meaning::specs::Statements::thrown))]
fn thrown(alloc: Global, place: Place, value: &Value) -> Stop
    ensures { result ≢ Stop.Memory → result ≡ spec.thrown place value.now }
{
    match forbidden_in(value) {
        Some(text) => match DocText::from_str(alloc, text) {
            Ok(text) => Stop::Deny(Rule {
                kind: RuleKind::Forbidden(text),
                place,
            }),
            Err(_) => Stop::Memory,
        },
        None => Stop::fault(FaultKind::Thrown, place),
    }
}

/// The items of a list.
#[tactic(auto, unfolding(sync_meaning::specs::Statements::items_in))]
pub(crate) fn items_in(place: Place, value: Value) -> Result<Shared<Items<Value>>, Stop>
    ensures { result ≡ spec.items_in place value }
{
    match value {
        Value::List(items) => Ok(items),
        _ => Err(Stop::fault(FaultKind::TypeFault, place)),
    }
}

/// An integer more or less by one.
fn one_more(place: Place, value: &Value, by: i64) -> Result<Value, Stop>
    ensures { result ≡ spec.one_more place value.now by }
{
    let n = integer_in(place, value)?;
    bounded(place, n as i128 + by as i128)
}

/// A variable takes the difference of two values.
fn put_difference(
    alloc: Global,
    state: &mut State,
    held: &Held,
    first: &Value,
    second: &Value,
) -> Result<(), Stop>
    ensures { DoesWhere (slot_fits held.now.slot)
        (λ scope. rests.assigned scope (held_source held.now)
        (values.calculated held.now.place (λ a b. a -ℤ b) first.now second.now))
        state.old result state.new }
{
    let value = subtracted(held.place, first, second)?;
    assign(alloc, state, &held.slot, value)
}

/// A visit, and how the statement ends.
#[tactic(auto, unfolding(sync_meaning::specs::Statements::jump))]
pub(crate) fn jump(state: &mut State, place: Place, how: Completion) -> Result<Completion, Stop>
    ensures { Does (spec.jump place how state.old) result state.new }
{
    state.visit(place)?;
    Ok(how)
}

/// What the rules are run with.
#[derive(Clone, Copy)]
pub(crate) struct Parts {
    pub alloc: Global,
    /// How much deeper an expression may be.
    pub depth: u64,
}

impl Parts {
    /// The value of an expression.
    pub fn value(&self, state: &mut State, expr: &Code) -> Result<Value, Stop>
        ensures { DoesWhere (fits expr.now)
            (λ scope. value_to self.now.depth scope (source expr.now)) state.old result state.new }
    {
        Expressions {
            alloc: self.alloc,
            depth: self.depth,
            inner: evaluated,
        }
        .value(state, expr)
    }

    /// The value of an expression, or undefined where there is none.
    fn value_or_undefined(
        &self,
        state: &mut State,
        expr: &Option<Boxed<Code>>,
    ) -> Result<Value, Stop>
        ensures { DoesWhere (fits_or_none expr.now)
            (λ scope. spec.value_or_undefined self.now.depth scope (source_or_none expr.now))
            state.old result state.new }
    {
        match expr {
            Some(expr) => self.value(state, expr.get()),
            None => Ok(Value::Undefined),
        }
    }

    /// One declaration. A `var` without a value leaves its variable as it is.
    fn declare_one(
        &self,
        state: &mut State,
        declares: Declares,
        held: &Held,
        expr: &Option<Boxed<Code>>,
    ) -> Result<(), Stop>
        ensures { DoesWhere (λ scope. new_fits declares held.now scope
            && fits_or_none expr.now scope)
            (λ scope. spec.declare_one self.now.depth declares scope held.now.slot.name
            (source_or_none expr.now)) state.old result state.new }
    {
        match (declares, expr) {
            (Declares::Var, None) => Ok(()),
            _ => {
                let value = self.value_or_undefined(state, expr)?;
                state.store(self.alloc, &held.slot, value)
            }
        }
    }

    /// Declarations from left to right; each sees those before it.
    fn declare_all(
        &self,
        state: &mut State,
        declares: Declares,
        names: &[(Held, Option<Boxed<Code>>)],
    ) -> Result<(), Stop>
        ensures { DoesWhere (names_fit declares names.now)
            (λ scope. spec.declare_all self.now.depth declares scope (name_sources names.now))
            state.old result state.new }
    {
        let mut left = names;
        while let [next, rest @ ..] = left {
            self.declare_one(state, declares, &next.0, &next.1)?;
            left = rest;
        }
        Ok(())
    }

    #[tactic(auto, unfolding(sync_meaning::specs::Statements::declare))]
    pub fn declare(&self, state: &mut State, found: &Opening) -> Result<(), Stop>
        ensures { DoesWhere (opening_fits found.now)
            (λ scope. spec.declare self.now.depth scope (opening_source found.now))
            state.old result state.new }
    {
        state.visit(found.place)?;
        self.declare_all(state, found.declares, found.names.as_slice())
    }

    #[tactic(auto, unfolding(sync_meaning::specs::Statements::set))]
    fn set(&self, state: &mut State, held: &Held, expr: &Code) -> Result<(), Stop>
        ensures { DoesWhere (λ scope. slot_fits held.now.slot scope && fits expr.now scope)
            (λ scope. spec.set self.now.depth scope (held_source held.now) (source expr.now))
            state.old result state.new }
    {
        let value = self.value(state, expr)?;
        assign(self.alloc, state, &held.slot, value)
    }

    /// `+=`
    #[tactic(auto, unfolding(sync_meaning::specs::Statements::add_to))]
    fn add_to(&self, state: &mut State, held: &Held, expr: &Code) -> Result<(), Stop>
        ensures { DoesWhere (λ scope. slot_fits held.now.slot scope && fits expr.now scope)
            (λ scope. spec.add_to self.now.depth scope (held_source held.now) (source expr.now))
            state.old result state.new }
    {
        let first = read(state, &held.slot)?;
        let done = self.add_value(state, held, &first, expr);
        drop(first);
        done
    }

    /// `+=`, with what the variable held.
    fn add_value(
        &self,
        state: &mut State,
        held: &Held,
        first: &Value,
        expr: &Code,
    ) -> Result<(), Stop>
        ensures { DoesWhere (λ scope. slot_fits held.now.slot scope && fits expr.now scope)
            (λ scope. rests.add_value self.now.depth scope (held_source held.now) first.now
            (source expr.now))
            state.old result state.new }
    {
        let second = self.value(state, expr)?;
        let done = self.put_sum(state, held, first, &second);
        drop(second);
        done
    }

    /// A variable takes the sum of two values.
    fn put_sum(
        &self,
        state: &mut State,
        held: &Held,
        first: &Value,
        second: &Value,
    ) -> Result<(), Stop>
        ensures { DoesWhere (slot_fits held.now.slot)
            (λ scope. rests.assigned scope (held_source held.now)
            (values.added_values held.now.place first.now second.now))
            state.old result state.new }
    {
        let value = added(self.alloc, held.place, first, second)?;
        assign(self.alloc, state, &held.slot, value)
    }

    /// `-=`
    #[tactic(auto, unfolding(sync_meaning::specs::Statements::subtract_from))]
    fn subtract_from(&self, state: &mut State, held: &Held, expr: &Code) -> Result<(), Stop>
        ensures { DoesWhere (λ scope. slot_fits held.now.slot scope && fits expr.now scope)
            (λ scope. spec.subtract_from self.now.depth scope (held_source held.now)
            (source expr.now)) state.old result state.new }
    {
        let first = read(state, &held.slot)?;
        let done = self.subtract_value(state, held, &first, expr);
        drop(first);
        done
    }

    /// `-=`, with what the variable held.
    fn subtract_value(
        &self,
        state: &mut State,
        held: &Held,
        first: &Value,
        expr: &Code,
    ) -> Result<(), Stop>
        ensures { DoesWhere (λ scope. slot_fits held.now.slot scope && fits expr.now scope)
            (λ scope. rests.subtract_value self.now.depth scope (held_source held.now) first.now
            (source expr.now))
            state.old result state.new }
    {
        let second = self.value(state, expr)?;
        let done = put_difference(self.alloc, state, held, first, &second);
        drop(second);
        done
    }

    /// `++` and `--`
    #[tactic(auto, unfolding(sync_meaning::specs::Statements::count))]
    fn count(&self, state: &mut State, held: &Held, by: i64) -> Result<(), Stop>
        ensures { DoesWhere (slot_fits held.now.slot)
            (λ scope. spec.count scope (held_source held.now) by) state.old result state.new }
    {
        let first = read(state, &held.slot)?;
        let value = one_more(held.place, &first, by);
        drop(first);
        assign(self.alloc, state, &held.slot, value?)
    }

    #[tactic(auto, unfolding(sync_meaning::specs::Statements::expression))]
    fn expression(&self, state: &mut State, expr: &Code) -> Result<(), Stop>
        ensures { DoesWhere (fits expr.now)
            (λ scope. spec.expression self.now.depth scope (source expr.now))
            state.old result state.new }
    {
        drop(self.value(state, expr)?);
        Ok(())
    }

    #[tactic(auto, unfolding(sync_meaning::specs::Statements::simple))]
    pub fn simple(&self, state: &mut State, simple: &Plain) -> Result<(), Stop>
        ensures { DoesWhere (plain_fits simple.now)
            (λ scope. spec.simple self.now.depth scope (plain_source simple.now))
            state.old result state.new }
    {
        state.visit(place_of_simple(simple))?;
        self.simple_by(state, simple)
    }

    fn simple_by(&self, state: &mut State, simple: &Plain) -> Result<(), Stop>
        ensures { DoesWhere (plain_fits simple.now)
            (λ scope. spec.simple_by self.now.depth scope (plain_source simple.now))
            state.old result state.new }
    {
        match simple {
            Plain::Write(held, Writes::Set, expr) => self.set(state, held, expr.get()),
            Plain::Write(held, Writes::Add, expr) => self.add_to(state, held, expr.get()),
            Plain::Write(held, Writes::Subtract, expr) => self.subtract_from(
                state,
                held,
                expr.get(),
            ),
            Plain::Increment(held) => self.count(state, held, 1),
            Plain::Decrement(held) => self.count(state, held, -1),
            Plain::Value(_, expr) => self.expression(state, expr),
        }
    }

    /// Whether a condition holds; one that is absent does.
    pub fn holds(
        &self,
        state: &mut State,
        place: Place,
        condition: &Option<Boxed<Code>>,
    ) -> Result<bool, Stop>
        ensures { DoesWhere (fits_or_none condition.now)
            (λ scope. spec.holds self.now.depth scope place (source_or_none condition.now))
            state.old result state.new }
    {
        match condition {
            Some(condition) => self.is_true(state, place, condition.get()),
            None => Ok(true),
        }
    }

    /// Whether a condition is true, by the statement at this place.
    #[tactic(auto, unfolding(sync_meaning::specs::Statements::is_true))]
    pub fn is_true(&self, state: &mut State, place: Place, condition: &Code) -> Result<bool, Stop>
        ensures { DoesWhere (fits condition.now)
            (λ scope. spec.is_true self.now.depth scope place (source condition.now))
            state.old result state.new }
    {
        let value = self.value(state, condition)?;
        let is_true = truth(place, &value);
        drop(value);
        is_true
    }

    /// The beginning of a `for`.
    pub fn start(&self, state: &mut State, start: &Option<Boxed<Begin>>) -> Result<(), Stop>
        ensures { DoesWhere (begin_or_none_fits start.now)
            (λ scope. spec.run_start self.now.depth scope (begin_or_none start.now))
            state.old result state.new }
    {
        match start {
            Some(start) => match start.get() {
                Begin::Declare(found) => self.declare(state, found),
                Begin::Simple(found) => self.simple(state, found),
            },
            None => Ok(()),
        }
    }

    /// What a `for` does behind each round.
    pub fn step(&self, state: &mut State, step: &Option<Boxed<Plain>>) -> Result<(), Stop>
        ensures { DoesWhere (plain_or_none_fits step.now)
            (λ scope. spec.run_step self.now.depth scope (plain_or_none step.now))
            state.old result state.new }
    {
        match step {
            Some(found) => self.simple(state, found.get()),
            None => Ok(()),
        }
    }

    #[tactic(auto, unfolding(sync_meaning::specs::Statements::returned))]
    pub fn returned(
        &self,
        state: &mut State,
        place: Place,
        expr: &Option<Boxed<Code>>,
    ) -> Result<Completion, Stop>
        ensures { DoesWhere (fits_or_none expr.now)
            (λ scope. spec.returned self.now.depth scope place (source_or_none expr.now))
            state.old result state.new }
    {
        state.visit(place)?;
        drop(self.value_or_undefined(state, expr)?);
        Ok(Completion::Return)
    }

    #[tactic(auto, unfolding(sync_meaning::specs::Statements::throw))]
    pub fn throw(&self, state: &mut State, place: Place, expr: &Code) -> Result<Completion, Stop>
        ensures { DoesWhere (fits expr.now)
            (λ scope. spec.throw self.now.depth scope place (source expr.now))
            state.old result state.new }
    {
        state.visit(place)?;
        let value = self.value(state, expr)?;
        let stop = thrown(self.alloc, place, &value);
        drop(value);
        Err(stop)
    }
}
