//! Expressions, each rule by its own function. The rules that open expressions inside take what reads
//! those as a parameter, so that each is proved by itself.

ghost use Rattle.std.specs.Prelude.{◌≡◌, ◌∷◌, ◌≤◌, IfOk};
ghost use Rattle.sync_syntax.specs.Reading.{ReadsByRule};
ghost use Rattle.sync_syntax.specs.Expressions as spec;
ghost use Rattle.sync_syntax.specs.inner.Nests.{Nests};

use crate::Memory;
use crate::behind::closed;
use crate::cursor::Tokens;
use crate::fault::ParseFault;
use crate::fitted::fitted;
use crate::operator::{operator_at, prefix};
use crate::tree::{Expr, Operator, Prefix, Suffix};
use json_doc::DocText;
use sqlite_items::{Boxed, Items};
use std::alloc::Global;
use sync_tokens::{Kind, Place, Sign, Word};

/// The key of a member: a name or a text.
#[tactic(auto, unfolding(crate::specs::Expressions::key))]
fn key(alloc: Global, tokens: &mut Tokens<'_>) -> Result<DocText, ParseFault>
    ensures { ReadsByRule (spec.key tokens.old) result tokens.new }
{
    match tokens.kind() {
        Kind::Name(name) => {
            let key = name.copy(alloc)?;
            tokens.take();
            Ok(key)
        }
        Kind::Text(text) => {
            let key = text.copy(alloc)?;
            tokens.take();
            Ok(key)
        }
        _ => Err(tokens.refuse()),
    }
}

/// A word that is an expression by itself.
fn word(tokens: &mut Tokens<'_>, place: Place, word: Word) -> Result<Expr, ParseFault>
    ensures { ReadsByRule (spec.expr_by_word place word tokens.old) result tokens.new }
{
    let found = match word {
        Word::True => Expr::Bool(place, true),
        Word::False => Expr::Bool(place, false),
        Word::Null => Expr::Null(place),
        Word::Undefined => Expr::Undefined(place),
        _ => return Err(tokens.refuse()),
    };
    tokens.take();
    Ok(found)
}

/// An expression with what follows it.
fn followed(alloc: Global, first: Expr, found: Items<Suffix>) -> Result<Expr, Memory>
    ensures { IfOk result (λ whole. whole ≡ spec.followed first found) }
{
    if found.is_empty() {
        Ok(first)
    } else {
        let first = Boxed::new(alloc, first)?;
        Ok(Expr::Postfix(first, fitted(alloc, found)?))
    }
}

/// An expression with operators and their right operands.
fn chained(alloc: Global, first: Expr, found: Items<(Operator, Expr)>) -> Result<Expr, Memory>
    ensures { IfOk result (λ whole. whole ≡ spec.chained first found) }
{
    if found.is_empty() {
        Ok(first)
    } else {
        let first = Boxed::new(alloc, first)?;
        Ok(Expr::Chain(first, fitted(alloc, found)?))
    }
}

#[tactic(auto, unfolding(crate::specs::Expressions::begins_suffix))]
fn begins_suffix(tokens: &Tokens<'_>) -> bool
    ensures { result ≡ spec.begins_suffix tokens.now }
{
    tokens.sees(Sign::Dot) || tokens.sees(Sign::BracketOpen) || tokens.sees(Sign::ParenOpen)
}

/// What the rules of expressions are read with.
#[derive(Drop)]
pub(crate) struct Grammar<F> {
    pub alloc: Global,
    /// How much more may be open.
    pub room: usize,
    /// Reads what is opened inside: an expression, or the operand of a prefix operator.
    pub nested: F,
}

impl<F: Fn(Global, &mut Tokens<'_>, usize, bool) -> Result<Expr, ParseFault>> Grammar<F> {
    fn nested(&self, tokens: &mut Tokens<'_>, is_operand: bool) -> Result<Expr, ParseFault>
        requires { Nests self.now.room (F.pre self.now.nested) (F.post self.now.nested) }
        ensures { ReadsByRule (spec.nested self.now.room is_operand tokens.old) result tokens.new }
    {
        (self.nested)(self.alloc, tokens, self.room, is_operand)
    }

    /// The same, in a block of its own.
    fn boxed(&self, tokens: &mut Tokens<'_>, is_operand: bool) -> Result<Boxed<Expr>, ParseFault>
        requires { Nests self.now.room (F.pre self.now.nested) (F.post self.now.nested) }
        ensures { ReadsByRule (spec.nested self.now.room is_operand tokens.old) result tokens.new }
    {
        let found = self.nested(tokens, is_operand)?;
        Ok(Boxed::new(self.alloc, found)?)
    }

    /// One or more expressions with commas between.
    fn separated(&self, tokens: &mut Tokens<'_>) -> Result<Items<Expr>, ParseFault>
        requires { Nests self.now.room (F.pre self.now.nested) (F.post self.now.nested) }
        ensures { ReadsByRule (spec.separated_in (spec.nested self.now.room) tokens.old)
            result tokens.new }
    {
        let mut found = Items::new(self.alloc);
        for _turn in 0..tokens.turns() {
            found.push(self.nested(tokens, false)?)?;
            if !tokens.eat(Sign::Comma) {
                return Ok(found);
            }
        }
        Err(tokens.refuse())
    }

    /// Expressions with commas between, or none, up to this sign and with it.
    #[tactic(auto, unfolding(crate::specs::Expressions::list_rule))]
    fn list(&self, tokens: &mut Tokens<'_>, close: Sign) -> Result<Items<Expr>, ParseFault>
        requires { Nests self.now.room (F.pre self.now.nested) (F.post self.now.nested) }
        ensures { ReadsByRule (spec.list_rule (spec.nested self.now.room) close tokens.old) result tokens.new }
    {
        if tokens.eat(close) {
            return Ok(Items::new(self.alloc));
        }
        let found = self.separated(tokens)?;
        let found = closed(tokens, found, close)?;
        Ok(fitted(self.alloc, found)?)
    }

    #[tactic(auto, unfolding(crate::specs::Expressions::member_rule))]
    fn member(&self, tokens: &mut Tokens<'_>) -> Result<(DocText, Expr), ParseFault>
        requires { Nests self.now.room (F.pre self.now.nested) (F.post self.now.nested) }
        ensures { ReadsByRule (spec.member_rule (spec.nested self.now.room) tokens.old) result tokens.new }
    {
        let key = key(self.alloc, tokens)?;
        tokens.expect(Sign::Colon)?;
        let value = self.nested(tokens, false)?;
        Ok((key, value))
    }

    /// One or more members with commas between.
    fn some_members(&self, tokens: &mut Tokens<'_>) -> Result<Items<(DocText, Expr)>, ParseFault>
        requires { Nests self.now.room (F.pre self.now.nested) (F.post self.now.nested) }
        ensures { ReadsByRule (spec.some_members (spec.nested self.now.room) tokens.old)
            result tokens.new }
    {
        let mut found = Items::new(self.alloc);
        for _turn in 0..tokens.turns() {
            found.push(self.member(tokens)?)?;
            if !tokens.eat(Sign::Comma) {
                return Ok(found);
            }
        }
        Err(tokens.refuse())
    }

    #[tactic(auto, unfolding(crate::specs::Expressions::members_rule))]
    fn members(&self, tokens: &mut Tokens<'_>) -> Result<Items<(DocText, Expr)>, ParseFault>
        requires { Nests self.now.room (F.pre self.now.nested) (F.post self.now.nested) }
        ensures { ReadsByRule (spec.members_rule (spec.nested self.now.room) tokens.old) result tokens.new }
    {
        if tokens.eat(Sign::BraceClose) {
            return Ok(Items::new(self.alloc));
        }
        let found = self.some_members(tokens)?;
        let found = closed(tokens, found, Sign::BraceClose)?;
        Ok(fitted(self.alloc, found)?)
    }

    fn bracketed(
        &self,
        tokens: &mut Tokens<'_>,
        place: Place,
        sign: Sign,
    ) -> Result<Expr, ParseFault>
        requires { Nests self.now.room (F.pre self.now.nested) (F.post self.now.nested) }
        ensures { ReadsByRule (spec.bracketed (spec.nested self.now.room) place sign tokens.old)
            result tokens.new }
    {
        match sign {
            Sign::ParenOpen => {
                tokens.take();
                let inner = self.nested(tokens, false)?;
                closed(tokens, inner, Sign::ParenClose)
            }
            Sign::BracketOpen => {
                tokens.take();
                Ok(Expr::List(place, self.list(tokens, Sign::BracketClose)?))
            }
            Sign::BraceOpen => {
                tokens.take();
                Ok(Expr::Object(place, self.members(tokens)?))
            }
            _ => Err(tokens.refuse()),
        }
    }

    #[tactic(auto, unfolding(crate::specs::Expressions::primary))]
    fn primary(&self, tokens: &mut Tokens<'_>) -> Result<Expr, ParseFault>
        requires { Nests self.now.room (F.pre self.now.nested) (F.post self.now.nested) }
        ensures { ReadsByRule (spec.primary (spec.nested self.now.room) tokens.old) result tokens.new }
    {
        let place = tokens.place();
        match tokens.kind() {
            Kind::Integer(n) => {
                tokens.take();
                Ok(Expr::Integer(place, *n))
            }
            Kind::Text(text) => {
                let text = text.copy(self.alloc)?;
                tokens.take();
                Ok(Expr::Text(place, text))
            }
            Kind::Name(name) => {
                let name = name.copy(self.alloc)?;
                tokens.take();
                Ok(Expr::Name(place, name))
            }
            Kind::Word(found) => word(tokens, place, *found),
            Kind::Sign(sign) => self.bracketed(tokens, place, *sign),
            _ => Err(tokens.refuse()),
        }
    }

    #[tactic(auto, unfolding(crate::specs::Expressions::suffix_rule))]
    fn suffix(&self, tokens: &mut Tokens<'_>) -> Result<Suffix, ParseFault>
        requires { Nests self.now.room (F.pre self.now.nested) (F.post self.now.nested) }
        ensures { ReadsByRule (spec.suffix_rule (spec.nested self.now.room) tokens.old) result tokens.new }
    {
        if tokens.eat(Sign::Dot) {
            return Ok(Suffix::Member(tokens.name(self.alloc)?));
        }
        if tokens.eat(Sign::BracketOpen) {
            let at = self.nested(tokens, false)?;
            return closed(tokens, Suffix::Index(at), Sign::BracketClose);
        }
        tokens.expect(Sign::ParenOpen)?;
        let found = self.list(tokens, Sign::ParenClose)?;
        Ok(Suffix::Call(found))
    }

    /// The suffixes that come next.
    fn suffixes(&self, tokens: &mut Tokens<'_>) -> Result<Items<Suffix>, ParseFault>
        requires { Nests self.now.room (F.pre self.now.nested) (F.post self.now.nested) }
        ensures { ReadsByRule (spec.all_suffixes (spec.nested self.now.room) tokens.old)
            result tokens.new }
    {
        let mut found = Items::new(self.alloc);
        for _turn in 0..tokens.turns() {
            if !begins_suffix(tokens) {
                return Ok(found);
            }
            found.push(self.suffix(tokens)?)?;
        }
        Err(tokens.refuse())
    }

    #[tactic(auto, unfolding(crate::specs::Expressions::postfix_rule))]
    fn postfix(&self, tokens: &mut Tokens<'_>) -> Result<Expr, ParseFault>
        requires { Nests self.now.room (F.pre self.now.nested) (F.post self.now.nested) }
        ensures { ReadsByRule (spec.postfix_rule (spec.nested self.now.room) tokens.old) result tokens.new }
    {
        let first = self.primary(tokens)?;
        let found = match self.suffixes(tokens) {
            Ok(found) => found,
            Err(fault) => {
                drop(first);
                return Err(fault);
            }
        };
        Ok(followed(self.alloc, first, found)?)
    }

    fn prefixed(
        &self,
        tokens: &mut Tokens<'_>,
        place: Place,
        op: Prefix,
    ) -> Result<Expr, ParseFault>
        requires { Nests self.now.room (F.pre self.now.nested) (F.post self.now.nested) }
        ensures { ReadsByRule (spec.prefixed_in self.now.room place op tokens.old) result tokens.new }
    {
        if self.room == 0 {
            return Err(tokens.too_deep());
        }
        tokens.take();
        let operand = self.boxed(tokens, true)?;
        Ok(Expr::Prefix(place, op, operand))
    }

    #[tactic(auto, unfolding(crate::specs::Expressions::unary))]
    fn unary(&self, tokens: &mut Tokens<'_>) -> Result<Expr, ParseFault>
        requires { Nests self.now.room (F.pre self.now.nested) (F.post self.now.nested) }
        ensures { ReadsByRule (spec.unary_in self.now.room tokens.old) result tokens.new }
    {
        let place = tokens.place();
        match prefix(tokens.kind()) {
            Some(op) => self.prefixed(tokens, place, op),
            None => self.postfix(tokens),
        }
    }

    /// Operators of one level with their right operands, which are of the level below.
    #[cycle(chain)]
    fn tails(
        &self,
        tokens: &mut Tokens<'_>,
        level: u8,
    ) -> Result<Items<(Operator, Expr)>, ParseFault>
        requires nests { Nests self.now.room (F.pre self.now.nested) (F.post self.now.nested) }
        requires some { 1 ≤ level }
        ensures { ReadsByRule (spec.tails_in self.now.room level tokens.old) result tokens.new }
    {
        let mut found = Items::new(self.alloc);
        for _turn in 0..tokens.turns() {
            let Some(op) = operator_at(level, tokens.kind()) else {
                return Ok(found);
            };
            tokens.take();
            let right = self.chain(tokens, level - 1)?;
            found.push((op, right))?;
        }
        Err(tokens.refuse())
    }

    /// An expression whose operators outside of brackets bind no more loosely than this level.
    #[cycle(chain)]
    fn chain(&self, tokens: &mut Tokens<'_>, level: u8) -> Result<Expr, ParseFault>
        requires { Nests self.now.room (F.pre self.now.nested) (F.post self.now.nested) }
        ensures { ReadsByRule (spec.chain_in self.now.room level tokens.old) result tokens.new }
    {
        if level == 0 {
            return self.unary(tokens);
        }
        let first = self.chain(tokens, level - 1)?;
        let found = match self.tails(tokens, level) {
            Ok(found) => found,
            Err(fault) => {
                drop(first);
                return Err(fault);
            }
        };
        Ok(chained(self.alloc, first, found)?)
    }

    #[tactic(auto, unfolding(crate::specs::Expressions::choice_rule))]
    fn choice(&self, tokens: &mut Tokens<'_>) -> Result<Expr, ParseFault>
        requires { Nests self.now.room (F.pre self.now.nested) (F.post self.now.nested) }
        ensures { ReadsByRule (spec.choice_in self.now.room tokens.old) result tokens.new }
    {
        let condition = self.chain(tokens, 6)?;
        if !tokens.eat(Sign::Question) {
            return Ok(condition);
        }
        let condition = Boxed::new(self.alloc, condition)?;
        let yes = self.boxed(tokens, false)?;
        tokens.expect(Sign::Colon)?;
        let no = self.boxed(tokens, false)?;
        Ok(Expr::Choice(condition, yes, no))
    }

    #[tactic(auto, unfolding(crate::specs::Expressions::expr_or_operand))]
    fn opened(&self, tokens: &mut Tokens<'_>, is_operand: bool) -> Result<Expr, ParseFault>
        requires { Nests self.now.room (F.pre self.now.nested) (F.post self.now.nested) }
        ensures { ReadsByRule (spec.expr_or_operand_in self.now.room is_operand tokens.old) result tokens.new }
    {
        if is_operand {
            self.unary(tokens)
        } else {
            self.choice(tokens)
        }
    }
}

/// An expression, or the operand of a prefix operator, where so much more may be open.
pub(crate) fn nested(
    alloc: Global,
    tokens: &mut Tokens<'_>,
    room: usize,
    is_operand: bool,
) -> Result<Expr, ParseFault>
    ensures { ReadsByRule (spec.nested room is_operand tokens.old) result tokens.new }
{
    if room == 0 {
        return Err(tokens.too_deep());
    }
    Grammar {
        alloc,
        room: room - 1,
        nested,
    }
    .opened(tokens, is_operand)
}
