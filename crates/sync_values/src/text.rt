//! Texts that values hold.

ghost use Rattle.std.specs.Prelude.{◌≡◌, ◌≤◌, length, IfOk};
ghost use Rattle.sync_values.specs.Units as spec;

use crate::Memory;
use crate::shared::Shared;
use arrayvec::ArrayString;
use json_doc::DocText;
use std::alloc::Global;
use std::marker::Model;

/// How many units of UTF-16 the character has that begins with this byte.
fn units_of(byte: u8) -> usize
    ensures value { result ≡ spec.units_of byte }
    ensures least { result ≤ 2 }
{
    if byte < 128 {
        1
    } else if byte < 192 {
        0
    } else if byte < 240 {
        1
    } else {
        2
    }
}

/// How many units of UTF-16 a text has.
fn units(text: &[u8]) -> usize
    ensures { result ≡ spec.units text.now }
{
    let mut count: usize = 0;
    for byte in text {
        count += units_of(*byte);
    }
    count
}

/// A text with how many units of UTF-16 it has, which contracts see as the text.
#[derive(Drop)]
struct Counted {
    text: DocText,
    count: usize,
}

impl Model for Counted {
    ghost use Rattle.std.specs.Prelude.{◌≡◌, List, ℕ};
    ghost use Rattle.sync_values.specs.Units.{units};

    ghost Value = { List ℕ };

    ghost view = { λ c. c.text };

    ghost invariant = { λ c. c.count ≡ units c.text };
}

impl Counted {
    fn new(text: DocText) -> Counted
        ensures { result ≡ text }
    {
        let count = units(text.as_str().as_bytes());
        Counted { text, count }
    }

    fn as_str(&self) -> &str
        ensures { result.now ≡ self.now }
    {
        self.text.as_str()
    }

    fn units(&self) -> usize
        ensures { result ≡ spec.units self.now }
    {
        self.count
    }
}

/// How a text is kept: a short one in its place, a longer one with its other owners.
#[derive(Drop)]
enum Kept {
    Short(ArrayString<16>),
    Long(Shared<Counted>),
}

/// A text, which contracts see as its bytes in UTF-8. One of at most 16 bytes takes no memory but
/// its place, and of a longer one no copy is made, and its units are counted once.
#[derive(Drop)]
pub struct Text {
    kept: Kept,
}

impl Model for Text {
    ghost use Rattle.std.specs.Prelude.{List, ℕ};
    ghost use Rattle.sync_values.specs.Kept.{bytes_of};

    ghost Value = { List ℕ };

    ghost view = { λ t. bytes_of t.kept };
}

impl Text {
    /// A text of its own with these bytes.
    #[tactic(auto, unfolding(crate::specs::Kept::bytes_of))]
    pub fn from_str(alloc: Global, text: &str) -> Result<Text, Memory>
        ensures { IfOk result (λ made. made ≡ text.now) }
    {
        match ArrayString::from(text) {
            Ok(short) => Ok(Text {
                kept: Kept::Short(short),
            }),
            Err(_) => Text::long(alloc, DocText::from_str(alloc, text)?),
        }
    }

    /// The first owner of a text.
    #[tactic(auto, unfolding(crate::specs::Kept::bytes_of))]
    fn long(alloc: Global, text: DocText) -> Result<Text, Memory>
        ensures { IfOk result (λ made. made ≡ text) }
    {
        Ok(Text {
            kept: Kept::Long(Shared::new(alloc, Counted::new(text))?),
        })
    }

    #[tactic(auto, unfolding(crate::specs::Kept::bytes_of))]
    pub fn as_str(&self) -> &str
        ensures { result.now ≡ self.now }
    {
        match &self.kept {
            Kept::Short(text) => text.as_str(),
            Kept::Long(text) => text.get().as_str(),
        }
    }

    /// How many bytes the text has.
    pub fn len(&self) -> usize
        ensures { result ≡ length self.now }
    {
        self.as_str().len()
    }

    /// How many units of UTF-16 the text has.
    #[tactic(auto, unfolding(crate::specs::Kept::bytes_of))]
    pub fn units(&self) -> usize
        ensures { result ≡ spec.units self.now }
    {
        match &self.kept {
            Kept::Short(text) => units(text.as_str().as_bytes()),
            Kept::Long(text) => text.get().units(),
        }
    }

    /// The same again. `Memory` comes where no more owners can be counted.
    #[tactic(auto, unfolding(crate::specs::Kept::bytes_of))]
    pub fn share(&self) -> Result<Text, Memory>
        ensures { IfOk result (λ made. made ≡ self.now) }
    {
        match &self.kept {
            Kept::Short(text) => Ok(Text {
                kept: Kept::Short(*text),
            }),
            Kept::Long(text) => Ok(Text {
                kept: Kept::Long(text.share()?),
            }),
        }
    }
}
