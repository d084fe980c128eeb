//! The statements that hold others, each rule by its own function. They take what reads a statement
//! inside as a parameter, so that each is proved by itself.

ghost use Rattle.std.specs.Prelude.{◌≡◌};
ghost use Rattle.sync_syntax.specs.Reading.{ReadsByRule};
ghost use Rattle.sync_syntax.specs.Statements as spec;
ghost use Rattle.sync_syntax.specs.inner.Nests.{NestsStatement};
ghost use Rattle.sync_syntax.specs.inner.Tails.{chosen};

use crate::cursor::Tokens;
use crate::fault::ParseFault;
use crate::fitted::fitted;
use crate::operator::declares_by;
use crate::simple::{Parts, jump, named};
use crate::tree::{Declares, Expr, Named, Start, Statement};
use sqlite_items::{Boxed, Items};
use std::alloc::Global;
use sync_tokens::{Kind, Place, Sign, Word};

/// What the rules are read with.
#[derive(Drop)]
pub(crate) struct Statements<F> {
    pub alloc: Global,
    /// How much more may be open.
    pub room: usize,
    /// Reads a statement inside, in a loop or not.
    pub inner: F,
}

impl<F: Fn(Global, &mut Tokens<'_>, usize, bool) -> Result<Statement, ParseFault>> Statements<F> {
    fn inner(&self, tokens: &mut Tokens<'_>, in_loop: bool) -> Result<Statement, ParseFault>
        requires { NestsStatement self.now.room (F.pre self.now.inner) (F.post self.now.inner) }
        ensures { ReadsByRule (spec.statement self.now.room in_loop tokens.old) result tokens.new }
    {
        (self.inner)(self.alloc, tokens, self.room, in_loop)
    }

    /// The same, in a block of its own.
    fn boxed(&self, tokens: &mut Tokens<'_>, in_loop: bool) -> Result<Boxed<Statement>, ParseFault>
        requires { NestsStatement self.now.room (F.pre self.now.inner) (F.post self.now.inner) }
        ensures { ReadsByRule (spec.statement self.now.room in_loop tokens.old) result tokens.new }
    {
        let found = self.inner(tokens, in_loop)?;
        Ok(Boxed::new(self.alloc, found)?)
    }

    fn parts(&self) -> Parts
        ensures { result.room ≡ self.now.room }
    {
        Parts {
            alloc: self.alloc,
            room: self.room,
        }
    }

    /// Statements up to a `}`, and with it.
    pub fn block(
        &self,
        tokens: &mut Tokens<'_>,
        in_loop: bool,
    ) -> Result<Items<Statement>, ParseFault>
        requires { NestsStatement self.now.room (F.pre self.now.inner) (F.post self.now.inner) }
        ensures { ReadsByRule (spec.block_in self.now.room in_loop tokens.old) result tokens.new }
    {
        let mut found = Items::new(self.alloc);
        for _turn in 0..tokens.turns() {
            if tokens.eat(Sign::BraceClose) {
                return Ok(found);
            }
            found.push(self.inner(tokens, in_loop)?)?;
        }
        Err(tokens.refuse())
    }

    /// An `else` and its statement, if it comes next.
    #[tactic(auto, unfolding(crate::specs::Statements::else_rule))]
    fn otherwise(
        &self,
        tokens: &mut Tokens<'_>,
        in_loop: bool,
    ) -> Result<Option<Boxed<Statement>>, ParseFault>
        requires { NestsStatement self.now.room (F.pre self.now.inner) (F.post self.now.inner) }
        ensures { ReadsByRule (spec.else_rule_in self.now.room in_loop tokens.old) result tokens.new }
    {
        if !tokens.eat_word(Word::Else) {
            return Ok(None);
        }
        Ok(Some(self.boxed(tokens, in_loop)?))
    }

    /// An `if` behind its condition.
    fn chosen(
        &self,
        tokens: &mut Tokens<'_>,
        place: Place,
        in_loop: bool,
        condition: Boxed<Expr>,
    ) -> Result<Statement, ParseFault>
        requires { NestsStatement self.now.room (F.pre self.now.inner) (F.post self.now.inner) }
        ensures { ReadsByRule (chosen self.now.room place in_loop condition tokens.old) result
            tokens.new }
    {
        tokens.expect(Sign::ParenClose)?;
        let first = self.boxed(tokens, in_loop)?;
        let other = self.otherwise(tokens, in_loop)?;
        Ok(Statement::If(place, condition, first, other))
    }

    #[tactic(auto, unfolding(crate::specs::Statements::if_rule))]
    fn choose(
        &self,
        tokens: &mut Tokens<'_>,
        place: Place,
        in_loop: bool,
    ) -> Result<Statement, ParseFault>
        requires { NestsStatement self.now.room (F.pre self.now.inner) (F.post self.now.inner) }
        ensures { ReadsByRule (spec.if_rule_in self.now.room place in_loop tokens.old) result tokens.new }
    {
        tokens.take();
        tokens.expect(Sign::ParenOpen)?;
        let condition = self.parts().boxed_expr(tokens)?;
        self.chosen(tokens, place, in_loop, condition)
    }

    /// A `for` behind what it begins with.
    #[tactic(auto, unfolding(crate::specs::Statements::repeat))]
    fn repeat(
        &self,
        tokens: &mut Tokens<'_>,
        place: Place,
        start: Option<Boxed<Start>>,
    ) -> Result<Statement, ParseFault>
        requires { NestsStatement self.now.room (F.pre self.now.inner) (F.post self.now.inner) }
        ensures { ReadsByRule (spec.repeat_in self.now.room place start tokens.old) result tokens.new }
    {
        tokens.expect(Sign::Semicolon)?;
        let condition = self.parts().expr_unless(tokens, Sign::Semicolon)?;
        tokens.expect(Sign::Semicolon)?;
        let last = self.parts().simple_unless(tokens, Sign::ParenClose)?;
        tokens.expect(Sign::ParenClose)?;
        let body = self.boxed(tokens, true)?;
        Ok(Statement::For(place, start, condition, last, body))
    }

    /// A `for` behind `of`.
    #[tactic(auto, unfolding(crate::specs::Statements::each_rule))]
    fn each(
        &self,
        tokens: &mut Tokens<'_>,
        place: Place,
        declares: Declares,
        name: Named,
    ) -> Result<Statement, ParseFault>
        requires { NestsStatement self.now.room (F.pre self.now.inner) (F.post self.now.inner) }
        ensures { ReadsByRule (spec.each_in self.now.room place declares name tokens.old)
            result tokens.new }
    {
        let items = self.parts().boxed_expr(tokens)?;
        tokens.expect(Sign::ParenClose)?;
        let body = self.boxed(tokens, true)?;
        Ok(Statement::ForOf(place, declares, name, items, body))
    }

    #[tactic(auto, unfolding(crate::specs::Statements::for_declared))]
    fn for_declared(
        &self,
        tokens: &mut Tokens<'_>,
        place: Place,
        declares: Declares,
    ) -> Result<Statement, ParseFault>
        requires { NestsStatement self.now.room (F.pre self.now.inner) (F.post self.now.inner) }
        ensures { ReadsByRule (spec.for_declared_in self.now.room place declares tokens.old)
            result tokens.new }
    {
        let begin = tokens.place();
        tokens.take();
        let name = named(self.alloc, tokens)?;
        if tokens.eat_word(Word::Of) {
            return self.each(tokens, place, declares, name);
        }
        let found = self.parts().declaration(tokens, begin, declares, name)?;
        let start = Boxed::new(self.alloc, Start::Declare(found))?;
        self.repeat(tokens, place, Some(start))
    }

    #[tactic(auto, unfolding(crate::specs::Statements::for_simple))]
    fn for_simple(&self, tokens: &mut Tokens<'_>, place: Place) -> Result<Statement, ParseFault>
        requires { NestsStatement self.now.room (F.pre self.now.inner) (F.post self.now.inner) }
        ensures { ReadsByRule (spec.for_simple_in self.now.room place tokens.old) result tokens.new }
    {
        if tokens.sees(Sign::Semicolon) {
            return self.repeat(tokens, place, None);
        }
        let found = self.parts().simple(tokens)?;
        let start = Boxed::new(self.alloc, Start::Simple(found))?;
        self.repeat(tokens, place, Some(start))
    }

    #[tactic(auto, unfolding(crate::specs::Statements::for_at))]
    fn for_at(&self, tokens: &mut Tokens<'_>, place: Place) -> Result<Statement, ParseFault>
        requires { NestsStatement self.now.room (F.pre self.now.inner) (F.post self.now.inner) }
        ensures { ReadsByRule (spec.for_in self.now.room place tokens.old) result tokens.new }
    {
        tokens.take();
        tokens.expect(Sign::ParenOpen)?;
        match declares_by(tokens.kind()) {
            Some(declares) => self.for_declared(tokens, place, declares),
            None => self.for_simple(tokens, place),
        }
    }

    /// A statement that begins with this word.
    fn word(
        &self,
        tokens: &mut Tokens<'_>,
        place: Place,
        in_loop: bool,
        word: Word,
    ) -> Result<Statement, ParseFault>
        requires { NestsStatement self.now.room (F.pre self.now.inner) (F.post self.now.inner) }
        ensures { ReadsByRule (spec.word_in self.now.room place in_loop word tokens.old)
            result tokens.new }
    {
        match word {
            Word::If => self.choose(tokens, place, in_loop),
            Word::For => self.for_at(tokens, place),
            Word::Return => self.parts().return_at(tokens, place),
            Word::Throw => self.parts().throw(tokens, place),
            Word::Break => {
                jump(tokens, in_loop)?;
                Ok(Statement::Break(place))
            }
            Word::Continue => {
                jump(tokens, in_loop)?;
                Ok(Statement::Continue(place))
            }
            _ => self.parts().plain(tokens, place),
        }
    }

    #[tactic(auto, unfolding(crate::specs::Statements::statement_rule))]
    fn opened(&self, tokens: &mut Tokens<'_>, in_loop: bool) -> Result<Statement, ParseFault>
        requires { NestsStatement self.now.room (F.pre self.now.inner) (F.post self.now.inner) }
        ensures { ReadsByRule (spec.statement_rule_in self.now.room in_loop tokens.old) result tokens.new }
    {
        let place = tokens.place();
        match tokens.kind() {
            Kind::Sign(Sign::BraceOpen) => {
                tokens.take();
                let found = self.block(tokens, in_loop)?;
                Ok(Statement::Block(place, fitted(self.alloc, found)?))
            }
            Kind::Sign(Sign::Semicolon) => {
                tokens.take();
                Ok(Statement::Empty(place))
            }
            Kind::Word(word) => self.word(tokens, place, in_loop, *word),
            _ => self.parts().plain(tokens, place),
        }
    }
}

/// A statement, where so much may be open.
pub(crate) fn statement(
    alloc: Global,
    tokens: &mut Tokens<'_>,
    room: usize,
    in_loop: bool,
) -> Result<Statement, ParseFault>
    ensures { ReadsByRule (spec.statement room in_loop tokens.old) result tokens.new }
{
    if room == 0 {
        return Err(tokens.too_deep());
    }
    Statements {
        alloc,
        room: room - 1,
        inner: statement,
    }
    .opened(tokens, in_loop)
}
