//! Expressions, each rule by its own function. They take what evaluates an expression inside as a
//! parameter, so that each is proved by itself.

ghost use Rattle.std.specs.Prelude.{◌≡◌, ◌&&◌, ◌++◌, ◌∷◌, [], OnOk};
ghost use Rattle.sync_meaning.specs.Expressions as spec;
ghost use Rattle.sync_meaning.specs.Expressions.{evaluated};
ghost use Rattle.sync_code.specs.Code.{source, sources, tail_source, tail_sources, member_sources};
ghost use Rattle.sync_code.specs.Code.{operand_sources};
ghost use Rattle.sync_code.specs.Code.{fits, all_fit, tail_fits, tails_fit, members_fit};
ghost use Rattle.sync_code.specs.Code.{operands_fit};
ghost use Rattle.sync_eval.specs.inner.Nested.{DoesWhere, Nests};
ghost use Rattle.sync_eval.specs.inner.Rests as rests;

use crate::callee::{called_by, calls_is_array, is_called, node_count, without_first};
use crate::leaf::{as_value, call_by, literal, member_or_method, name, text};
use json_doc::DocText;
use sqlite_items::Items;
use std::alloc::Global;
use sync_code::{Code, Memory, Tail};
use sync_meaning::{
    Builtin, ByName, Rule, RuleKind, State, Stop, Target, Value, bounded, combined, indexed,
    listed, prefixed, truth,
};
use sync_syntax::tree::{Operator, Prefix};
use sync_tokens::Place;

/// The place of an expression, which is that of its first character.
pub(crate) fn place_of(code: &Code) -> Place
    ensures { result ≡ spec.place_of (source code.now) }
{
    match code {
        Code::Undefined(place) => *place,
        Code::Null(place) => *place,
        Code::Bool(place, _) => *place,
        Code::Integer(place, _) => *place,
        Code::Text(place, _) => *place,
        Code::Name(place, _) => *place,
        Code::List(place, _) => *place,
        Code::Object(place, _) => *place,
        Code::Prefix(place, _, _) => *place,
        Code::Postfix(first, _) => place_of(first.get()),
        Code::Chain(first, _) => place_of(first.get()),
        Code::Choice(condition, _, _) => place_of(condition.get()),
    }
}

/// One member more.
fn push_member(
    alloc: Global,
    members: &mut ByName<Value>,
    name: &DocText,
    value: Value,
) -> Result<(), Memory>
    ensures { OnOk result (members.new ≡ members.old ++ (name.now, value) ∷ []) }
{
    match name.copy(alloc) {
        Ok(name) => members.push(name, value),
        Err(error) => {
            drop(value);
            Err(error)
        }
    }
}

/// What the rules are evaluated with.
#[derive(Clone, Copy)]
pub(crate) struct Expressions<F> {
    pub alloc: Global,
    /// How much deeper an expression may be.
    pub depth: u64,
    /// Evaluates an expression inside: where it is given true, as what a call calls.
    pub inner: F,
}

impl<F: Fn(Global, u64, &mut State, &Code, bool) -> Result<Target, Stop>> Expressions<F> {
    fn inner(&self, state: &mut State, expr: &Code, called: bool) -> Result<Target, Stop>
        requires { Nests self.now.depth (F.pre self.now.inner) (F.post self.now.inner) }
        ensures { DoesWhere (fits expr.now)
            (λ scope. evaluated self.now.depth called scope (source expr.now))
            state.old result state.new }
    {
        (self.inner)(self.alloc, self.depth, state, expr, called)
    }

    /// The value of an expression inside.
    #[tactic(auto, unfolding(sync_meaning::specs::Expressions::inner_value))]
    pub fn value(&self, state: &mut State, expr: &Code) -> Result<Value, Stop>
        requires { Nests self.now.depth (F.pre self.now.inner) (F.post self.now.inner) }
        ensures { DoesWhere (fits expr.now)
            (λ scope. spec.value_to self.now.depth scope (source expr.now))
            state.old result state.new }
    {
        let target = self.inner(state, expr, false)?;
        as_value(place_of(expr), target)
    }

    /// The values of expressions, from left to right.
    #[tactic(auto, unfolding(sync_meaning::specs::Expressions::values))]
    fn values(&self, state: &mut State, exprs: &[Code]) -> Result<Items<Value>, Stop>
        requires { Nests self.now.depth (F.pre self.now.inner) (F.post self.now.inner) }
        ensures { DoesWhere (all_fit exprs.now)
            (λ scope. spec.values (evaluated self.now.depth) scope (sources exprs.now))
            state.old result state.new }
    {
        let mut found = Items::new(self.alloc);
        let mut left = exprs;
        while let [expr, rest @ ..] = left {
            match self.value(state, expr) {
                Ok(value) => found.push(value)?,
                Err(stop) => {
                    drop(found);
                    return Err(stop);
                }
            }
            left = rest;
        }
        Ok(found)
    }

    /// The members of an object, from left to right.
    #[tactic(auto, unfolding(sync_meaning::specs::Expressions::members))]
    fn members(&self, state: &mut State, exprs: &[(DocText, Code)]) -> Result<ByName<Value>, Stop>
        requires { Nests self.now.depth (F.pre self.now.inner) (F.post self.now.inner) }
        ensures { DoesWhere (members_fit exprs.now)
            (λ scope. spec.members (evaluated self.now.depth) scope (member_sources exprs.now))
            state.old result state.new }
    {
        let mut found = ByName::new(self.alloc);
        let mut left = exprs;
        while let [expr, rest @ ..] = left {
            match self.value(state, &expr.1) {
                Ok(value) => push_member(self.alloc, &mut found, &expr.0, value)?,
                Err(stop) => {
                    drop(found);
                    return Err(stop);
                }
            }
            left = rest;
        }
        Ok(found)
    }

    #[tactic(auto, unfolding(sync_meaning::specs::Expressions::list))]
    fn list(&self, state: &mut State, place: Place, exprs: &[Code]) -> Result<Value, Stop>
        requires { Nests self.now.depth (F.pre self.now.inner) (F.post self.now.inner) }
        ensures { DoesWhere (all_fit exprs.now)
            (λ scope. spec.list (evaluated self.now.depth) scope place (sources exprs.now))
            state.old result state.new }
    {
        state.visit(place)?;
        let values = self.values(state, exprs)?;
        listed(self.alloc, place, values)
    }

    #[tactic(auto, unfolding(sync_meaning::specs::Expressions::object))]
    fn object(
        &self,
        state: &mut State,
        place: Place,
        exprs: &[(DocText, Code)],
    ) -> Result<Value, Stop>
        requires { Nests self.now.depth (F.pre self.now.inner) (F.post self.now.inner) }
        ensures { DoesWhere (members_fit exprs.now)
            (λ scope. spec.object (evaluated self.now.depth) scope place (member_sources exprs.now))
            state.old result state.new }
    {
        state.visit(place)?;
        let members = self.members(state, exprs)?;
        Ok(Value::object(self.alloc, members)?)
    }

    #[tactic(auto, unfolding(sync_meaning::specs::Expressions::prefix))]
    fn prefix(
        &self,
        state: &mut State,
        place: Place,
        op: Prefix,
        expr: &Code,
    ) -> Result<Value, Stop>
        requires { Nests self.now.depth (F.pre self.now.inner) (F.post self.now.inner) }
        ensures { DoesWhere (fits expr.now)
            (λ scope. spec.prefix (evaluated self.now.depth) scope place op (source expr.now))
            state.old result state.new }
    {
        state.visit(place)?;
        let value = self.value(state, expr)?;
        let made = prefixed(self.alloc, place, op, &value);
        drop(value);
        made
    }

    /// The first operand where it decides, else the second.
    #[tactic(auto, unfolding(sync_meaning::specs::Expressions::decided))]
    fn decided(
        &self,
        state: &mut State,
        place: Place,
        deciding: bool,
        value: Value,
        expr: &Code,
    ) -> Result<Value, Stop>
        requires { Nests self.now.depth (F.pre self.now.inner) (F.post self.now.inner) }
        ensures { DoesWhere (fits expr.now)
            (λ scope. spec.decided (evaluated self.now.depth) scope place deciding value
            (source expr.now)) state.old result state.new }
    {
        let is_true = match truth(place, &value) {
            Ok(is_true) => is_true,
            Err(stop) => {
                drop(value);
                return Err(stop);
            }
        };
        let decides = if is_true { deciding } else { !deciding };
        if decides {
            Ok(value)
        } else {
            drop(value);
            self.value(state, expr)
        }
    }

    /// An operator, with its first operand evaluated.
    fn operation(
        &self,
        state: &mut State,
        place: Place,
        op: Operator,
        value: Value,
        expr: &Code,
    ) -> Result<Value, Stop>
        requires { Nests self.now.depth (F.pre self.now.inner) (F.post self.now.inner) }
        ensures { DoesWhere (fits expr.now)
            (λ scope. spec.operation (evaluated self.now.depth) scope place op value
            (source expr.now)) state.old result state.new }
    {
        match op {
            Operator::Or => self.decided(state, place, true, value, expr),
            Operator::And => self.decided(state, place, false, value, expr),
            _ => self.operated(state, place, op, value, expr),
        }
    }

    /// An operator that takes both operands.
    #[tactic(auto, unfolding(sync_meaning::specs::Expressions::operated))]
    fn operated(
        &self,
        state: &mut State,
        place: Place,
        op: Operator,
        value: Value,
        expr: &Code,
    ) -> Result<Value, Stop>
        requires { Nests self.now.depth (F.pre self.now.inner) (F.post self.now.inner) }
        ensures { DoesWhere (fits expr.now)
            (λ scope. spec.operated (evaluated self.now.depth) scope place op value
            (source expr.now)) state.old result state.new }
    {
        match self.value(state, expr) {
            Ok(other) => combined(self.alloc, place, op, value, other),
            Err(stop) => {
                drop(value);
                Err(stop)
            }
        }
    }

    /// Operators from left to right.
    fn operations(
        &self,
        state: &mut State,
        place: Place,
        first: Value,
        tails: &[(Operator, Code)],
    ) -> Result<Value, Stop>
        requires { Nests self.now.depth (F.pre self.now.inner) (F.post self.now.inner) }
        ensures { DoesWhere (operands_fit tails.now)
            (λ scope. spec.operations (evaluated self.now.depth) scope place first
            (operand_sources tails.now)) state.old result state.new }
    {
        let mut value = first;
        let mut left = tails;
        while let [tail, rest @ ..] = left {
            value = self.operation(state, place, tail.0, value, &tail.1)?;
            left = rest;
        }
        Ok(value)
    }

    #[tactic(auto, unfolding(sync_meaning::specs::Expressions::chain))]
    fn chain(
        &self,
        state: &mut State,
        first: &Code,
        tails: &[(Operator, Code)],
    ) -> Result<Value, Stop>
        requires { Nests self.now.depth (F.pre self.now.inner) (F.post self.now.inner) }
        ensures { DoesWhere (λ scope. fits first.now scope && operands_fit tails.now scope)
            (λ scope. spec.chain (evaluated self.now.depth) scope (source first.now)
            (operand_sources tails.now)) state.old result state.new }
    {
        let place = place_of(first);
        state.take_visits(tails.len() as u64, place)?;
        let value = self.value(state, first)?;
        self.operations(state, place, value, tails)
    }

    #[tactic(auto, unfolding(sync_meaning::specs::Expressions::choice))]
    fn choice(
        &self,
        state: &mut State,
        condition: &Code,
        first: &Code,
        other: &Code,
    ) -> Result<Value, Stop>
        requires { Nests self.now.depth (F.pre self.now.inner) (F.post self.now.inner) }
        ensures { DoesWhere (λ scope. fits condition.now scope
            && (fits first.now scope && fits other.now scope))
            (λ scope. spec.choice (evaluated self.now.depth) scope (source condition.now)
            (source first.now) (source other.now)) state.old result state.new }
    {
        let place = place_of(condition);
        state.visit(place)?;
        let value = self.value(state, condition)?;
        let chosen = self.chosen(state, place, &value, first, other);
        drop(value);
        chosen
    }

    /// The one operand of `?:` or the other, by the value of the condition.
    fn chosen(
        &self,
        state: &mut State,
        place: Place,
        condition: &Value,
        first: &Code,
        other: &Code,
    ) -> Result<Value, Stop>
        requires { Nests self.now.depth (F.pre self.now.inner) (F.post self.now.inner) }
        ensures { DoesWhere (λ scope. fits first.now scope && fits other.now scope)
            (λ scope. rests.chosen self.now.depth scope place condition.now (source first.now)
            (source other.now)) state.old result state.new }
    {
        if truth(place, condition)? {
            self.value(state, first)
        } else {
            self.value(state, other)
        }
    }

    /// A call: the arguments first.
    #[tactic(auto, unfolding(sync_meaning::specs::Expressions::call))]
    fn call(
        &self,
        state: &mut State,
        place: Place,
        target: Target,
        exprs: &[Code],
    ) -> Result<Value, Stop>
        requires { Nests self.now.depth (F.pre self.now.inner) (F.post self.now.inner) }
        ensures { DoesWhere (all_fit exprs.now)
            (λ scope. spec.call (evaluated self.now.depth) scope place target (sources exprs.now))
            state.old result state.new }
    {
        match self.values(state, exprs) {
            Ok(values) => {
                let found = call_by(self.alloc, state, place, target, values.as_slice());
                drop(values);
                found
            }
            Err(stop) => {
                drop(target);
                Err(stop)
            }
        }
    }

    #[tactic(auto, unfolding(sync_meaning::specs::Expressions::index))]
    fn index(
        &self,
        state: &mut State,
        place: Place,
        target: Target,
        expr: &Code,
    ) -> Result<Target, Stop>
        requires { Nests self.now.depth (F.pre self.now.inner) (F.post self.now.inner) }
        ensures { DoesWhere (fits expr.now)
            (λ scope. spec.index (evaluated self.now.depth) scope place target (source expr.now))
            state.old result state.new }
    {
        let value = as_value(place, target)?;
        let found = self.item(state, place, &value, expr);
        drop(value);
        found
    }

    /// The item of a value at what an expression evaluates to.
    fn item(
        &self,
        state: &mut State,
        place: Place,
        value: &Value,
        expr: &Code,
    ) -> Result<Target, Stop>
        requires { Nests self.now.depth (F.pre self.now.inner) (F.post self.now.inner) }
        ensures { DoesWhere (fits expr.now)
            (λ scope. rests.item_at self.now.depth scope place value.now (source expr.now))
            state.old result state.new }
    {
        let index = self.value(state, expr)?;
        let found = indexed(place, value, &index);
        drop(index);
        Ok(Target::Value(found?))
    }

    /// One suffix behind what was found.
    #[tactic(auto, unfolding(sync_meaning::specs::Expressions::suffix))]
    fn suffix(
        &self,
        state: &mut State,
        called: bool,
        place: Place,
        target: Target,
        suffix: &Tail,
    ) -> Result<Target, Stop>
        requires { Nests self.now.depth (F.pre self.now.inner) (F.post self.now.inner) }
        ensures { DoesWhere (tail_fits suffix.now)
            (λ scope. spec.suffix (evaluated self.now.depth) called scope place target
            (tail_source suffix.now)) state.old result state.new }
    {
        match suffix {
            Tail::Member(name) => { member_or_method(state, called, place, target, name.as_str()) }
            Tail::Index(expr) => self.index(state, place, target, expr),
            Tail::Call(exprs) => {
                let value = self.call(state, place, target, exprs.as_slice())?;
                Ok(Target::Value(value))
            }
        }
    }

    /// Suffixes from left to right.
    fn suffixes(
        &self,
        state: &mut State,
        behind: bool,
        place: Place,
        first: Target,
        suffixes: &[Tail],
    ) -> Result<Target, Stop>
        requires { Nests self.now.depth (F.pre self.now.inner) (F.post self.now.inner) }
        ensures { DoesWhere (tails_fit suffixes.now)
            (λ scope. spec.suffixes (evaluated self.now.depth) behind scope place first
            (tail_sources suffixes.now)) state.old result state.new }
    {
        let mut target = first;
        let mut left = suffixes;
        while let [suffix, rest @ ..] = left {
            let called = is_called(behind, rest);
            target = self.suffix(state, called, place, target, suffix)?;
            left = rest;
        }
        Ok(target)
    }

    #[tactic(auto, unfolding(sync_meaning::specs::Expressions::postfix))]
    fn postfix(
        &self,
        state: &mut State,
        behind: bool,
        first: &Code,
        suffixes: &[Tail],
    ) -> Result<Target, Stop>
        requires { Nests self.now.depth (F.pre self.now.inner) (F.post self.now.inner) }
        ensures { DoesWhere (λ scope. fits first.now scope && tails_fit suffixes.now scope)
            (λ scope. spec.postfix (evaluated self.now.depth) behind scope (source first.now)
            (tail_sources suffixes.now)) state.old result state.new }
    {
        let place = place_of(first);
        state.take_visits(node_count(behind, suffixes), place)?;
        if calls_is_array(behind, first, suffixes) {
            let rest = without_first(suffixes);
            self.suffixes(
                state,
                behind,
                place,
                Target::Builtin(Builtin::IsArray),
                rest,
            )
        } else {
            let target = self.inner(state, first, is_called(behind, suffixes))?;
            self.suffixes(state, behind, place, target, suffixes)
        }
    }

    /// What a call calls.
    #[tactic(auto, unfolding(sync_meaning::specs::Expressions::callee), using(crate::proofs::Layers::out_source))]
    fn callee(&self, state: &mut State, expr: &Code) -> Result<Target, Stop>
        requires { Nests self.now.depth (F.pre self.now.inner) (F.post self.now.inner) }
        ensures { DoesWhere (fits expr.now)
            (λ scope. spec.callee (evaluated self.now.depth) scope (source expr.now))
            state.old result state.new }
    {
        match expr {
            Code::Name(_, slot) => Ok(called_by(slot.name.as_str())),
            Code::Postfix(first, suffixes) => {
                self.postfix(state, true, first.get(), suffixes.as_slice())
            }
            _ => Ok(Target::Nothing),
        }
    }

    /// An expression with suffixes as a value.
    #[tactic(auto, unfolding(sync_meaning::specs::Expressions::postfix_value))]
    fn postfix_value(
        &self,
        state: &mut State,
        first: &Code,
        suffixes: &[Tail],
    ) -> Result<Value, Stop>
        requires { Nests self.now.depth (F.pre self.now.inner) (F.post self.now.inner) }
        ensures { DoesWhere (λ scope. fits first.now scope && tails_fit suffixes.now scope)
            (λ scope. spec.postfix_value (evaluated self.now.depth) scope (source first.now)
            (tail_sources suffixes.now)) state.old result state.new }
    {
        let target = self.postfix(state, false, first, suffixes)?;
        as_value(place_of(first), target)
    }

    /// The value of an expression.
    #[tactic(auto, unfolding(sync_meaning::specs::Expressions::node))]
    fn node(&self, state: &mut State, expr: &Code) -> Result<Value, Stop>
        requires { Nests self.now.depth (F.pre self.now.inner) (F.post self.now.inner) }
        ensures { DoesWhere (fits expr.now)
            (λ scope. spec.node (evaluated self.now.depth) scope (source expr.now))
            state.old result state.new }
    {
        match expr {
            Code::Undefined(place) => literal(state, *place, Ok(Value::Undefined)),
            Code::Null(place) => literal(state, *place, Ok(Value::Null)),
            Code::Bool(place, truth) => literal(state, *place, Ok(Value::Bool(*truth))),
            Code::Integer(place, n) => literal(state, *place, bounded(*place, *n as i128)),
            Code::Text(place, found) => text(self.alloc, state, *place, found),
            Code::Name(place, slot) => name(state, *place, slot),
            Code::List(place, exprs) => self.list(state, *place, exprs.as_slice()),
            Code::Object(place, exprs) => self.object(state, *place, exprs.as_slice()),
            Code::Prefix(place, op, expr) => self.prefix(state, *place, *op, expr.get()),
            Code::Postfix(first, suffixes) => {
                self.postfix_value(state, first.get(), suffixes.as_slice())
            }
            Code::Chain(first, tails) => self.chain(state, first.get(), tails.as_slice()),
            Code::Choice(condition, first, other) => {
                self.choice(state, condition.get(), first.get(), other.get())
            }
        }
    }

    /// An expression: where it is called, as what the call calls.
    #[tactic(auto, unfolding(sync_meaning::specs::Expressions::node_or_callee))]
    fn opened(&self, state: &mut State, expr: &Code, called: bool) -> Result<Target, Stop>
        requires { Nests self.now.depth (F.pre self.now.inner) (F.post self.now.inner) }
        ensures { DoesWhere (fits expr.now)
            (λ scope. spec.node_or_callee (evaluated self.now.depth) called scope (source expr.now))
            state.old result state.new }
    {
        if called {
            self.callee(state, expr)
        } else {
            Ok(Target::Value(self.node(state, expr)?))
        }
    }
}

/// An expression, to this depth.
pub(crate) fn evaluated(
    alloc: Global,
    depth: u64,
    state: &mut State,
    expr: &Code,
    called: bool,
) -> Result<Target, Stop>
    ensures { DoesWhere (fits expr.now)
        (λ scope. evaluated depth called scope (source expr.now)) state.old result state.new }
{
    if depth == 0 {
        return Err(Stop::Deny(Rule {
            kind: RuleKind::Fuel,
            place: place_of(expr),
        }));
    }
    Expressions {
        alloc,
        depth: depth - 1,
        inner: evaluated,
    }
    .opened(state, expr, called)
}
