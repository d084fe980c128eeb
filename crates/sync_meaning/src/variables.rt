//! What the variables hold.

ghost use Rattle.std.specs.Prelude.{◌≡◌, ◌<◌, ◌≤◌, [], ◌∷◌, ◌++◌, length, slice_get, IsTrue, IfOk, IfSome, OnErr, OnOk};
ghost use Rattle.sync_values.specs.declared.value.Value.{Value};
ghost use Rattle.sync_meaning.specs.Slots.{each_once, held, is_variable, slot_of, replaced};
ghost use Rattle.sync_meaning.specs.Variables as spec;

use crate::Memory;
use json_doc::DocText;
use sqlite_items::at;
use std::alloc::Global;
use std::marker::Model;
use sync_values::{Text, Value};

/// A variable where it is used: its name, its number and its slot. The function's own variables,
/// which are the parameters and those of `var`, have the number 0, and each `let` and `const` has
/// another.
#[derive(Drop)]
pub struct Slot {
    pub name: DocText,
    pub number: u64,
    /// Variables of other names or numbers have other slots; nothing rests on this but how soon one
    /// is found.
    pub at: usize,
}

/// A text of the program where it is used, and its number among the longer ones.
#[derive(Drop)]
pub struct Literal {
    pub text: DocText,
    /// Nothing rests on this but whether a copy that the run has is found.
    pub at: usize,
}

/// A variable that was written: its name, its number and its value.
#[derive(Drop)]
pub struct Variable {
    pub name: DocText,
    pub number: u64,
    pub value: Value,
}

impl Variable {
    fn is(&self, slot: &Slot) -> bool
        ensures { result ≡ is_variable slot.now.name slot.now.number self.now }
    {
        slot.name.as_str() == self.name.as_str() && slot.number == self.number
    }
}

/// The variables that were written, each once, which contracts see as their list.
#[derive(Drop)]
pub struct Variables {
    items: Vec<Variable>,
    /// For each slot the place in the list at which its variable was written last. It counts only
    /// where that variable stands there.
    places: Vec<usize>,
    /// What was written and may hold lists or objects, in its order.
    nested: Vec<Value>,
    /// At how many of these those are let go that nothing else holds.
    limit: usize,
    /// The run's own copies of longer literals, by their numbers.
    literals: Vec<Option<Text>>,
}

impl Model for Variables {
    ghost use Rattle.std.specs.Prelude.{List, IsTrue};
    ghost use Rattle.std.specs.Coded.{codes};
    ghost use Rattle.sync_values.specs.contracts.value.Value as values;
    ghost use Rattle.sync_meaning.specs.declared.variables.Variable.{Variable};
    ghost use Rattle.sync_meaning.specs.Slots.{each_once};

    ghost Value = { List Variable };

    ghost coded = { Prim.hlevel (codes, values.the_row.coded) };

    ghost view = { λ v. v.items.items };

    ghost invariant = { λ v. IsTrue (each_once v.items.items) };
}

/// The place of a variable, or the count of all where it isn't there.
fn place_among(slot: &Slot, variables: &[Variable]) -> usize
    ensures { result ≡ slot_of slot.now.name slot.now.number variables.now }
{
    let mut at = 0;
    let mut left = variables;
    while let [variable, rest @ ..] = left {
        if variable.is(slot) {
            return at;
        }
        at += 1;
        left = rest;
    }
    at
}

/// The place that is kept for a slot, where its variable stands there.
#[tactic(auto, using(crate::proofs::Slots::place_kept))]
fn kept_place(places: &[usize], variables: &[Variable], slot: &Slot) -> Option<usize>
    requires { IsTrue (each_once variables.now) }
    ensures { IfSome result (λ at. at ≡ slot_of slot.now.name slot.now.number variables.now) }
{
    let Some(place) = places.get(slot.at) else {
        return None;
    };
    match at(variables, *place) {
        Some(variable) if variable.is(slot) => Some(*place),
        _ => None,
    }
}

/// What the variable at a place holds, or undefined where there is none.
fn value_at(variables: &[Variable], at: usize) -> Result<Value, Memory>
    ensures { IfOk result (λ value. value ≡ held (slice_get variables.now at)) }
{
    match variables.get(at) {
        Some(variable) => variable.value.share(),
        None => Ok(Value::Undefined),
    }
}

/// How many items a list has at most that no document has.
const MAX_ITEMS: usize = 1024;

/// Whether one of these holds others.
fn any_holds(values: &[Value]) -> bool {
    for value in values {
        match value {
            Value::List(_) | Value::Object(_) => return true,
            _ => {}
        }
    }
    false
}

/// Whether a value may hold lists or objects that no document holds.
fn may_nest(value: &Value) -> bool {
    match value {
        Value::Object(_) => true,
        Value::List(values) => {
            let values = values.get().as_slice();
            values.len() <= MAX_ITEMS && any_holds(values)
        }
        _ => false,
    }
}

/// How many values are kept at least before some are let go.
const MIN_KEPT: usize = 64;

/// Lets go what nothing else holds, what was kept last first.
fn let_go(values: &mut Vec<Value>) {
    for value in values.iter_mut().rev() {
        if value.is_sole() {
            *value = Value::Undefined;
        }
    }
    values.retain(|value| !matches!(value, Value::Undefined));
}

/// The variable at a place takes a value.
#[tactic(auto, using(crate::proofs::Slots::replaced_set))]
fn replace(variables: &mut Vec<Variable>, at: usize, value: Value)
    requires { at < length variables.old.items }
    ensures { variables.new.items ≡ replaced at value variables.old.items }
{
    variables[at].value = value;
}

/// A variable that was not written yet stands behind the others.
fn append(alloc: Global, items: &mut Vec<Variable>, slot: &Slot, value: Value) -> Result<(), Memory>
    ensures ok { OnOk result (items.new.items ≡ items.old.items
        ++ spec.variable slot.now.name slot.now.number value ∷ []) }
    ensures err { OnErr result (items.new.items ≡ items.old.items) }
{
    match slot.name.copy(alloc) {
        Ok(name) => {
            items.push(Variable {
                name,
                number: slot.number,
                value,
            })?;
            Ok(())
        }
        Err(error) => {
            drop(value);
            Err(error)
        }
    }
}

/// A variable takes a value where it stands, or else behind the others.
#[tactic(auto, using(crate::proofs::Slots::written_there, crate::proofs::Slots::written_last))]
fn put(
    alloc: Global,
    items: &mut Vec<Variable>,
    at: usize,
    slot: &Slot,
    value: Value,
) -> Result<(), Memory>
    requires { at ≡ slot_of slot.now.name slot.now.number items.old.items }
    ensures ok { OnOk result (items.new.items
        ≡ spec.variables_with slot.now.name slot.now.number value items.old.items) }
    ensures err { OnErr result (items.new.items ≡ items.old.items) }
{
    if at < items.len() {
        replace(items, at, value);
        Ok(())
    } else {
        append(alloc, items, slot, value)
    }
}

/// A slot keeps a place.
fn note(places: &mut [usize], slot: usize, at: usize) {
    if let Some(place) = places.get_mut(slot) {
        *place = at;
    }
}

/// How many bytes a text has at most that is copied each time.
const SHORT: usize = 16;

/// So many places for copies, without any.
fn no_copies(alloc: Global, count: usize) -> Result<Vec<Option<Text>>, Memory> {
    let mut made = Vec::with_capacity(alloc, count)?;
    for _ in 0..count {
        made.push(None)?;
    }
    Ok(made)
}

/// The copy of a literal, where it is among these.
fn copy_among(copies: &[Option<Text>], literal: &Literal) -> Result<Option<Text>, Memory>
    ensures { IfOk result (λ found. IfSome found (λ text. text ≡ literal.now.text)) }
{
    match copies.get(literal.at) {
        Some(Some(text)) if text.as_str() == literal.text.as_str() => Ok(Some(text.share()?)),
        _ => Ok(None),
    }
}

/// A copy is kept at a place.
fn keep_copy(copies: &mut [Option<Text>], at: usize, text: Text) {
    if let Some(place) = copies.get_mut(at) {
        *place = Some(text);
    } else {
        drop(text);
    }
}

impl Variables {
    /// None was written; there are so many slots and longer literals.
    pub fn new(alloc: Global, slots: usize, literals: usize) -> Result<Variables, Memory>
        ensures { IfOk result (λ made. made ≡ []) }
    {
        let places = Vec::from_elem(alloc, 0, slots)?;
        Ok(Variables {
            items: Vec::new(alloc),
            places,
            nested: Vec::new(alloc),
            limit: MIN_KEPT,
            literals: no_copies(alloc, literals)?,
        })
    }

    /// The place of a variable, or the count of all where it isn't there.
    fn place_of(&self, slot: &Slot) -> usize
        ensures { result ≡ slot_of slot.now.name slot.now.number self.now }
    {
        match kept_place(self.places.as_slice(), self.items.as_slice(), slot) {
            Some(at) => at,
            None => place_among(slot, self.items.as_slice()),
        }
    }

    /// What a variable holds.
    #[tactic(auto, using(crate::proofs::Slots::value_held))]
    pub fn value(&self, slot: &Slot) -> Result<Value, Memory>
        ensures { IfOk result (λ value. value
            ≡ spec.value_in slot.now.name slot.now.number self.now) }
    {
        let at = self.place_of(slot);
        value_at(self.items.as_slice(), at)
    }

    /// Where twice as much is kept as stayed the last time, what nothing else holds is let go.
    fn sweep(&mut self)
        ensures { self.new ≡ self.old }
    {
        if self.nested.len() >= self.limit {
            let_go(&mut self.nested);
            self.limit = self.nested.len().saturating_mul(2).max(MIN_KEPT);
        }
    }

    /// What may nest is held as long as anything else holds it.
    fn keep(&mut self, value: &Value) -> Result<(), Memory>
        ensures { self.new ≡ self.old }
    {
        if may_nest(value) {
            self.nested.push(value.share()?)?;
            self.sweep();
        }
        Ok(())
    }

    /// A variable takes a value, which isn't held but there.
    #[tactic(auto, using(crate::proofs::Slots::once_written))]
    fn take(&mut self, alloc: Global, slot: &Slot, value: Value) -> Result<(), Memory>
        ensures { OnOk result (self.new
            ≡ spec.variables_with slot.now.name slot.now.number value self.old) }
    {
        let at = self.place_of(slot);
        put(alloc, &mut self.items, at, slot, value)?;
        note(self.places.as_mut_slice(), slot.at, at);
        Ok(())
    }

    /// A variable takes a value.
    pub fn write(&mut self, alloc: Global, slot: &Slot, value: Value) -> Result<(), Memory>
        ensures { OnOk result (self.new
            ≡ spec.variables_with slot.now.name slot.now.number value self.old) }
    {
        match self.keep(&value) {
            Ok(()) => self.take(alloc, slot, value),
            Err(error) => {
                drop(value);
                Err(error)
            }
        }
    }

    /// The text of a literal. Of a longer one the run keeps a copy, which it shares.
    pub fn literal(&mut self, alloc: Global, literal: &Literal) -> Result<Text, Memory>
        ensures text { IfOk result (λ text. text ≡ literal.now.text) }
        ensures same { self.new ≡ self.old }
    {
        if literal.text.len() <= SHORT {
            return Text::from_str(alloc, literal.text.as_str());
        }
        if let Some(text) = copy_among(self.literals.as_slice(), literal)? {
            return Ok(text);
        }
        let text = Text::from_str(alloc, literal.text.as_str())?;
        let copy = text.share()?;
        keep_copy(self.literals.as_mut_slice(), literal.at, copy);
        Ok(text)
    }

    /// Lets all go, what was written last first, so that no value is dropped deeper than an
    /// expression or a document nests.
    pub fn release(self) {
        let Variables {
            items,
            places,
            nested,
            literals,
            ..
        } = self;
        drop(items);
        drop(places);
        drop(literals);
        let mut left = nested;
        while let Some(value) = left.pop() {
            drop(value);
        }
    }
}
