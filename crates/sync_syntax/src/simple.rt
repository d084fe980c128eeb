//! The statements that hold no others, each rule by its own function.

ghost use Rattle.std.specs.Prelude.{◌≡◌, ◌∷◌, ◌++◌};
ghost use Rattle.sync_syntax.specs.Reading.{ReadsByRule};
ghost use Rattle.sync_syntax.specs.Statements as spec;

use crate::behind::ended;
use crate::cursor::Tokens;
use crate::expression::nested;
use crate::fault::ParseFault;
use crate::operator::{Writing, declares_by, is_name, writing_by};
use crate::tree::{Declaration, Declares, Expr, Named, Simple, Statement};
use sqlite_items::{Boxed, Items};
use std::alloc::Global;
use sync_tokens::{Place, Sign};

/// A name with its place.
#[tactic(auto, unfolding(crate::specs::Statements::named_rule))]
pub(crate) fn named(alloc: Global, tokens: &mut Tokens<'_>) -> Result<Named, ParseFault>
    ensures { ReadsByRule (spec.named_rule tokens.old) result tokens.new }
{
    let place = tokens.place();
    let name = tokens.name(alloc)?;
    Ok(Named { place, name })
}

/// A `;`, which may be absent directly before a `}`.
#[tactic(auto, unfolding(crate::specs::Statements::statement_end))]
pub(crate) fn ending(tokens: &mut Tokens<'_>) -> Result<(), ParseFault>
    ensures { ReadsByRule (spec.statement_end tokens.old) result tokens.new }
{
    if tokens.sees(Sign::BraceClose) {
        return Ok(());
    }
    tokens.expect(Sign::Semicolon)
}

/// `break` or `continue`, which stand in a loop.
#[tactic(auto, unfolding(crate::specs::Statements::jump_rule))]
pub(crate) fn jump(tokens: &mut Tokens<'_>, in_loop: bool) -> Result<(), ParseFault>
    ensures { ReadsByRule (spec.jump_rule in_loop tokens.old) result tokens.new }
{
    if !in_loop {
        return Err(tokens.refuse());
    }
    tokens.take();
    ending(tokens)
}

/// What the rules are read with.
#[derive(Clone, Copy)]
pub(crate) struct Parts {
    pub alloc: Global,
    /// How much more may be open.
    pub room: usize,
}

impl Parts {
    pub fn expr(&self, tokens: &mut Tokens<'_>) -> Result<Expr, ParseFault>
        ensures { ReadsByRule (spec.expr self.now.room tokens.old) result tokens.new }
    {
        nested(self.alloc, tokens, self.room, false)
    }

    /// The same, in a block of its own.
    pub fn boxed_expr(&self, tokens: &mut Tokens<'_>) -> Result<Boxed<Expr>, ParseFault>
        ensures { ReadsByRule (spec.expr self.now.room tokens.old) result tokens.new }
    {
        let found = self.expr(tokens)?;
        Ok(Boxed::new(self.alloc, found)?)
    }

    /// The value that a variable is declared with, if it is.
    #[tactic(auto, unfolding(crate::specs::Statements::given))]
    fn given(&self, tokens: &mut Tokens<'_>) -> Result<Option<Boxed<Expr>>, ParseFault>
        ensures { ReadsByRule (spec.given self.now.room tokens.old) result tokens.new }
    {
        if !tokens.eat(Sign::Assign) {
            return Ok(None);
        }
        Ok(Some(self.boxed_expr(tokens)?))
    }

    #[tactic(auto, unfolding(crate::specs::Statements::declared_rule))]
    fn declared(&self, tokens: &mut Tokens<'_>) -> Result<(Named, Option<Boxed<Expr>>), ParseFault>
        ensures { ReadsByRule (spec.declared_rule self.now.room tokens.old) result tokens.new }
    {
        let name = named(self.alloc, tokens)?;
        let value = self.given(tokens)?;
        Ok((name, value))
    }

    fn more_declared(
        &self,
        tokens: &mut Tokens<'_>,
    ) -> Result<Items<(Named, Option<Boxed<Expr>>)>, ParseFault>
        ensures { ReadsByRule (spec.more_declared self.now.room tokens.old) result tokens.new }
    {
        let mut found = Items::new(self.alloc);
        for _turn in 0..tokens.turns() {
            found.push(self.declared(tokens)?)?;
            if !tokens.eat(Sign::Comma) {
                return Ok(found);
            }
        }
        Err(tokens.refuse())
    }

    /// A declaration behind its first name.
    #[tactic(auto, unfolding(crate::specs::Statements::declaration))]
    pub fn declaration(
        &self,
        tokens: &mut Tokens<'_>,
        place: Place,
        declares: Declares,
        first: Named,
    ) -> Result<Declaration, ParseFault>
        ensures { ReadsByRule (spec.declaration self.now.room place declares first tokens.old)
            result tokens.new }
    {
        let value = self.given(tokens)?;
        let mut names = Items::new(self.alloc);
        names.push((first, value))?;
        if tokens.eat(Sign::Comma) {
            names.append(self.more_declared(tokens)?)?;
        }
        Ok(Declaration {
            place,
            declares,
            names,
        })
    }

    fn written(
        &self,
        tokens: &mut Tokens<'_>,
        writing: Writing,
        name: Named,
    ) -> Result<Simple, ParseFault>
        ensures { ReadsByRule (spec.written_rule self.now.room writing name tokens.old) result tokens.new }
    {
        match writing {
            Writing::Sets(how) => {
                let value = self.boxed_expr(tokens)?;
                Ok(Simple::Write(name, how, value))
            }
            Writing::Increments => Ok(Simple::Increment(name)),
            Writing::Decrements => Ok(Simple::Decrement(name)),
        }
    }

    #[tactic(auto, unfolding(crate::specs::Statements::write))]
    fn write(&self, tokens: &mut Tokens<'_>, writing: Writing) -> Result<Simple, ParseFault>
        ensures { ReadsByRule (spec.write self.now.room writing tokens.old) result tokens.new }
    {
        let name = named(self.alloc, tokens)?;
        tokens.take();
        self.written(tokens, writing, name)
    }

    #[tactic(auto, unfolding(crate::specs::Statements::value_rule))]
    fn value(&self, tokens: &mut Tokens<'_>) -> Result<Simple, ParseFault>
        ensures { ReadsByRule (spec.value_rule self.now.room tokens.old) result tokens.new }
    {
        let place = tokens.place();
        Ok(Simple::Value(place, self.expr(tokens)?))
    }

    fn write_or_value(
        &self,
        tokens: &mut Tokens<'_>,
        writing: Option<Writing>,
    ) -> Result<Simple, ParseFault>
        ensures { ReadsByRule (spec.write_or_value self.now.room writing tokens.old) result tokens.new }
    {
        match writing {
            Some(how) => self.write(tokens, how),
            None => self.value(tokens),
        }
    }

    #[tactic(auto, unfolding(crate::specs::Statements::simple_rule))]
    pub fn simple(&self, tokens: &mut Tokens<'_>) -> Result<Simple, ParseFault>
        ensures { ReadsByRule (spec.simple_rule self.now.room tokens.old) result tokens.new }
    {
        if is_name(tokens.kind()) {
            self.write_or_value(tokens, writing_by(tokens.second()))
        } else {
            self.value(tokens)
        }
    }

    /// An expression, unless this stands in its place.
    #[tactic(auto, unfolding(crate::specs::Statements::expr_unless))]
    pub fn expr_unless(
        &self,
        tokens: &mut Tokens<'_>,
        close: Sign,
    ) -> Result<Option<Boxed<Expr>>, ParseFault>
        ensures { ReadsByRule (spec.expr_unless self.now.room close tokens.old) result tokens.new }
    {
        if tokens.sees(close) {
            return Ok(None);
        }
        Ok(Some(self.boxed_expr(tokens)?))
    }

    #[tactic(auto, unfolding(crate::specs::Statements::simple_unless))]
    pub fn simple_unless(
        &self,
        tokens: &mut Tokens<'_>,
        close: Sign,
    ) -> Result<Option<Boxed<Simple>>, ParseFault>
        ensures { ReadsByRule (spec.simple_unless self.now.room close tokens.old) result tokens.new }
    {
        if tokens.sees(close) {
            return Ok(None);
        }
        let found = self.simple(tokens)?;
        Ok(Some(Boxed::new(self.alloc, found)?))
    }

    #[tactic(auto, unfolding(crate::specs::Statements::returned_rule))]
    fn returned(&self, tokens: &mut Tokens<'_>) -> Result<Option<Boxed<Expr>>, ParseFault>
        ensures { ReadsByRule (spec.returned_rule self.now.room tokens.old) result tokens.new }
    {
        if tokens.sees(Sign::BraceClose) {
            return Ok(None);
        }
        self.expr_unless(tokens, Sign::Semicolon)
    }

    #[tactic(auto, unfolding(crate::specs::Statements::return_at))]
    pub fn return_at(&self, tokens: &mut Tokens<'_>, place: Place) -> Result<Statement, ParseFault>
        ensures { ReadsByRule (spec.return_at self.now.room place tokens.old) result tokens.new }
    {
        tokens.take();
        let found = self.returned(tokens)?;
        ended(tokens, Statement::Return(place, found))
    }

    #[tactic(auto, unfolding(crate::specs::Statements::throw_rule))]
    pub fn throw(&self, tokens: &mut Tokens<'_>, place: Place) -> Result<Statement, ParseFault>
        ensures { ReadsByRule (spec.throw_rule self.now.room place tokens.old) result tokens.new }
    {
        tokens.take();
        let found = self.expr(tokens)?;
        ended(tokens, Statement::Throw(place, found))
    }

    #[tactic(auto, unfolding(crate::specs::Statements::declare_rule))]
    fn declare(
        &self,
        tokens: &mut Tokens<'_>,
        place: Place,
        declares: Declares,
    ) -> Result<Statement, ParseFault>
        ensures { ReadsByRule (spec.declare_rule self.now.room place declares tokens.old) result tokens.new }
    {
        tokens.take();
        let first = named(self.alloc, tokens)?;
        let found = self.declaration(tokens, place, declares, first)?;
        ended(tokens, Statement::Declare(found))
    }

    #[tactic(auto, unfolding(crate::specs::Statements::only_simple))]
    fn only_simple(&self, tokens: &mut Tokens<'_>) -> Result<Statement, ParseFault>
        ensures { ReadsByRule (spec.only_simple self.now.room tokens.old) result tokens.new }
    {
        let found = self.simple(tokens)?;
        ended(tokens, Statement::Simple(found))
    }

    /// A declaration, or another statement that no word begins.
    #[tactic(auto, unfolding(crate::specs::Statements::plain_rule))]
    pub fn plain(&self, tokens: &mut Tokens<'_>, place: Place) -> Result<Statement, ParseFault>
        ensures { ReadsByRule (spec.plain_rule self.now.room place tokens.old) result tokens.new }
    {
        match declares_by(tokens.kind()) {
            Some(declares) => self.declare(tokens, place, declares),
            None => self.only_simple(tokens),
        }
    }
}
