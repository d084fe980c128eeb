//! A cursor over the tokens of a text.

ghost use Rattle.std.specs.Prelude.{◌≡◌, [], MatchOption};
ghost use Rattle.sync_syntax.specs.Reading as spec;
ghost use Rattle.sync_syntax.specs.Reading.{ReadsByRule};

use crate::fault::{ParseFault, SyntaxFault};
use json_doc::DocText;
use std::alloc::Global;
use std::marker::Model;
use sync_tokens::{Kind, Place, Sign, SyntaxWhy, Token, Word};

/// The tokens from one on. The last token stays.
#[derive(Drop)]
pub(crate) struct Tokens<'t> {
    first: &'t Token,
    rest: &'t [Token],
}

impl<'t> Model for Tokens<'t> {
    ghost use Rattle.std.specs.Prelude.{List, ◌∷◌};
    ghost use Rattle.sync_tokens.specs.declared.token.Token.{Token};

    ghost Value = { List Token };

    ghost view = { λ t. t.first.now ∷ t.rest.now };
}

impl<'t> Tokens<'t> {
    /// All of these tokens, where there is one.
    pub fn new(all: &'t [Token]) -> Option<Tokens<'t>>
        ensures { MatchOption result (all.now ≡ []) (λ tokens. tokens ≡ all.now) }
    {
        match all {
            [first, rest @ ..] => Some(Tokens { first, rest }),
            [] => None,
        }
    }

    #[tactic(auto, unfolding(crate::specs::Reading::kind))]
    pub fn kind(&self) -> &'t Kind
        ensures { result.now ≡ spec.kind self.now }
    {
        &self.first.kind
    }

    #[tactic(auto, unfolding(crate::specs::Reading::place))]
    pub fn place(&self) -> Place
        ensures { result ≡ spec.place self.now }
    {
        self.first.place
    }

    #[tactic(auto, unfolding(crate::specs::Reading::next))]
    pub fn take(&mut self)
        ensures { self.new ≡ spec.next self.old }
    {
        if let [first, rest @ ..] = self.rest {
            self.first = first;
            self.rest = rest;
        }
    }

    /// The token after the next.
    #[tactic(auto, unfolding(crate::specs::Reading::second, crate::specs::Reading::next, crate::specs::Reading::kind))]
    pub fn second(&self) -> &'t Kind
        ensures { result.now ≡ spec.second self.now }
    {
        match self.rest {
            [second, ..] => &second.kind,
            [] => &self.first.kind,
        }
    }

    /// At least as many turns as there are tokens.
    #[tactic(auto, unfolding(crate::specs::Reading::turns))]
    pub fn turns(&self) -> usize
        ensures { result ≡ spec.turns self.now }
    {
        self.rest.len() + 1
    }

    fn fault(&self, why: SyntaxWhy) -> ParseFault
        ensures { result ≡ spec.fault_here why self.now }
    {
        let why = match self.kind() {
            Kind::Bad(own) => *own,
            _ => why,
        };
        ParseFault::Bad(SyntaxFault {
            place: self.place(),
            why,
        })
    }

    /// The fault that no rule reads the next token.
    #[tactic(auto, unfolding(crate::specs::Reading::refused_at))]
    pub fn refuse(&self) -> ParseFault
        ensures { result ≡ spec.refused_at self.now }
    {
        self.fault(SyntaxWhy::Unexpected)
    }

    /// The fault that too much is open at the next token.
    #[tactic(auto, unfolding(crate::specs::Reading::too_deep))]
    pub fn too_deep(&self) -> ParseFault
        ensures { result ≡ spec.too_deep self.now }
    {
        self.fault(SyntaxWhy::TooDeep)
    }

    #[tactic(auto, unfolding(crate::specs::Reading::sees, crate::specs::Reading::same_sign))]
    pub fn sees(&self, sign: Sign) -> bool
        ensures { result ≡ spec.sees sign self.now }
    {
        match self.kind() {
            Kind::Sign(found) => *found == sign,
            _ => false,
        }
    }

    #[tactic(auto, unfolding(crate::specs::Reading::sees_word, crate::specs::Reading::same_word))]
    pub fn sees_word(&self, word: Word) -> bool
        ensures { result ≡ spec.sees_word word self.now }
    {
        match self.kind() {
            Kind::Word(found) => *found == word,
            _ => false,
        }
    }

    /// Takes this sign, if it comes next.
    #[tactic(auto, unfolding(crate::specs::Reading::after))]
    pub fn eat(&mut self, sign: Sign) -> bool
        ensures found { result ≡ spec.sees sign self.old }
        ensures after { self.new ≡ spec.after sign self.old }
    {
        let found = self.sees(sign);
        if found {
            self.take();
        }
        found
    }

    /// Takes this word, if it comes next.
    #[tactic(auto, unfolding(crate::specs::Reading::after_word))]
    pub fn eat_word(&mut self, word: Word) -> bool
        ensures found { result ≡ spec.sees_word word self.old }
        ensures after { self.new ≡ spec.after_word word self.old }
    {
        let found = self.sees_word(word);
        if found {
            self.take();
        }
        found
    }

    #[tactic(auto, unfolding(crate::specs::Reading::expect))]
    pub fn expect(&mut self, sign: Sign) -> Result<(), ParseFault>
        ensures { ReadsByRule (spec.expect sign self.old) result self.new }
    {
        if self.sees(sign) {
            self.take();
            Ok(())
        } else {
            Err(self.refuse())
        }
    }

    #[tactic(auto, unfolding(crate::specs::Reading::expect_word))]
    pub fn expect_word(&mut self, word: Word) -> Result<(), ParseFault>
        ensures { ReadsByRule (spec.expect_word word self.old) result self.new }
    {
        if self.sees_word(word) {
            self.take();
            Ok(())
        } else {
            Err(self.refuse())
        }
    }

    #[tactic(auto, unfolding(crate::specs::Reading::name_rule))]
    pub fn name(&mut self, alloc: Global) -> Result<DocText, ParseFault>
        ensures { ReadsByRule (spec.name_rule self.old) result self.new }
    {
        match self.kind() {
            Kind::Name(name) => {
                let name = name.copy(alloc)?;
                self.take();
                Ok(name)
            }
            _ => Err(self.refuse()),
        }
    }
}
