//! Texts of a grammar.

ghost use Rattle.std.specs.Prelude.{◌≡◌, ◌↔◌, ◌++◌, List, ℕ, Bool, IsTrue, IfOk, OnOk, OnErr};
ghost use Rattle.std.specs.Str.{bytes_eq};
ghost use Rattle.std.specs.Ordering.{nat_cmp};
ghost use Rattle.std.specs.Cmp.Lexicographic.{slice_cmp};

use crate::fault::TextFault;
use crate::item_list::{Item, Rising};
use sg_outside::{Bytes, Memory};
use std::alloc::{AllocError, Global};
use std::cmp::Ordering;
use std::marker::{Model, PhantomData};

/// A grammar of texts, by the test of a text's bytes.
pub trait TextGrammar {
    ghost admits: { List ℕ → Bool };

    /// Whether the text is in the grammar. Allocates nothing.
    fn is_text(text: &[u8]) -> bool
        ensures { result ≡ admits text.now };
}

/// A text of UTF-8 in a grammar. Contracts see its bytes.
#[derive(Drop)]
pub struct Text<G: TextGrammar> {
    text: String,
    of: PhantomData<G>,
}

impl<G: TextGrammar> Model for Text<G> {
    ghost use Rattle.std.specs.Prelude.{List, ℕ, IsTrue, string_bytes};

    ghost Value = { List ℕ };

    ghost view = { λ n. string_bytes n.text };

    ghost invariant = { λ n. IsTrue (G.admits (string_bytes n.text)) };
}

impl<G: TextGrammar> Text<G> {
    /// Reads one: `Bad` where the text is outside the grammar.
    pub fn parse(alloc: Global, text: &str) -> Result<Text<G>, TextFault>
        ensures ok { IfOk result (λ n. (n ≡ text.now) × IsTrue (G.admits text.now)) }
        ensures bad { result ≡ Err TextFault.Bad → ¬ IsTrue (G.admits text.now) }
        ensures outside { ¬ IsTrue (G.admits text.now) → result ≡ Err TextFault.Bad }
    {
        if !G::is_text(text.as_bytes()) {
            return Err(TextFault::Bad);
        }
        Ok(Text {
            text: String::from_str(alloc, text)?,
            of: PhantomData,
        })
    }

    pub fn as_str(&self) -> &str
        ensures value { result.now ≡ self.now }
        ensures grammar { IsTrue (G.admits self.now) }
    {
        self.text.as_str()
    }

    pub fn as_bytes(&self) -> &[u8]
        ensures value { result.now ≡ self.now }
        ensures grammar { IsTrue (G.admits self.now) }
    {
        self.text.as_bytes()
    }

    /// Whether both are the same, byte by byte.
    pub fn equals(&self, other: &Text<G>) -> bool
        ensures value { result ≡ bytes_eq self.now other.now }
        ensures same { IsTrue result ↔ (self.now ≡ other.now) }
    {
        self.text.as_bytes() == other.text.as_bytes()
    }

    /// The order by bytes.
    pub fn order(&self, other: &Text<G>) -> Ordering
        ensures { result ≡ slice_cmp nat_cmp self.now other.now }
    {
        self.text.as_bytes().cmp(other.text.as_bytes())
    }

    pub fn copy(&self, alloc: Global) -> Result<Text<G>, AllocError>
        ensures { IfOk result (λ n. n ≡ self.now) }
    {
        Ok(Text {
            text: String::from_str(alloc, self.text.as_str())?,
            of: PhantomData,
        })
    }
}

impl<G: TextGrammar> Item for Text<G> {
    ghost text = { λ n. n };

    ghost admits = { λ n. G.admits n };

    fn is_text(piece: &str) -> bool {
        G::is_text(piece.as_bytes())
    }

    fn read(alloc: Global, piece: &str) -> Result<Text<G>, TextFault> {
        Text::parse(alloc, piece)
    }

    fn duplicate(&self, alloc: Global) -> Result<Text<G>, AllocError> {
        self.copy(alloc)
    }

    fn print(&self, out: &mut Bytes) -> Result<(), Memory> {
        out.extend_from_slice(self.text.as_bytes())
    }
}

impl<G: TextGrammar> Rising for Text<G> {
    ghost order = { slice_cmp nat_cmp };

    fn compare_texts(one: &str, other: &str) -> Ordering {
        one.as_bytes().cmp(other.as_bytes())
    }
}
