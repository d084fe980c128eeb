ghost use Rattle.std.specs.Prelude.{◌≡◌, ◌↔◌, [], ◌++◌, length, IsTrue, IfOk, OnOk, OnErr, string_bytes};

use crate::Memory;
use std::alloc::Global;
use std::marker::Model;

/// A text, which contracts see as its bytes in UTF-8.
#[derive(Debug, Drop)]
pub struct DocText {
    text: String,
}

impl Model for DocText {
    ghost use Rattle.std.specs.Prelude.{List, ℕ, string_bytes};

    ghost Value = { List ℕ };

    ghost view = { λ t. string_bytes t.text };
}

impl From<String> for DocText {
    ghost from_gives = { λ text made. made ≡ string_bytes text };

    fn from(text: String) -> DocText {
        DocText { text }
    }
}

impl DocText {
    /// The empty text, which allocates nothing.
    pub fn new(alloc: Global) -> DocText
        ensures { result ≡ [] }
    {
        DocText {
            text: String::new(alloc),
        }
    }

    /// A text of its own with these bytes.
    pub fn from_str(alloc: Global, text: &str) -> Result<DocText, Memory>
        ensures { IfOk result (λ made. made ≡ text.now) }
    {
        Ok(DocText {
            text: String::from_str(alloc, text)?,
        })
    }

    pub fn as_str(&self) -> &str
        ensures { result.now ≡ self.now }
    {
        self.text.as_str()
    }

    /// How many bytes the text has.
    pub fn len(&self) -> usize
        ensures { result ≡ length self.now }
    {
        self.text.len()
    }

    pub fn is_empty(&self) -> bool
        ensures { IsTrue result ↔ (self.now ≡ []) }
    {
        self.text.is_empty()
    }

    /// Writes more at the end; out of memory the text is as before.
    pub fn push_str(&mut self, more: &str) -> Result<(), Memory>
        ensures ok { OnOk result (self.new ≡ self.old ++ more.now) }
        ensures err { OnErr result (self.new ≡ self.old) }
    {
        self.text.push_str(more)
    }

    pub fn copy(&self, alloc: Global) -> Result<DocText, Memory>
        ensures { IfOk result (λ made. made ≡ self.now) }
    {
        DocText::from_str(alloc, self.as_str())
    }

    /// Gives the text back, which allocates nothing.
    pub fn into_string(self) -> String
        ensures { string_bytes result ≡ self }
    {
        self.text
    }
}
