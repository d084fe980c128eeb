//! Properties of a message: keys and values, in order.

ghost use Rattle.std.specs.Prelude.{◌≡◌, [], ◌↔◌, IsTrue, length, All};
ghost use Rattle.std.specs.Option.{option_copied};
ghost use Rattle.blip_frame.specs.Props.{pairs_of, value_at, AreUtf8};

use std::alloc::Global;
use std::marker::Model;

/// One property.
#[derive(Drop)]
pub struct Prop {
    pub key: String,
    pub value: String,
}

/// Properties, in the order in which they stand. Contracts see a list of pairs of bytes.
#[derive(Drop)]
pub struct Props {
    items: Vec<Prop>,
}

impl Model for Props {
    ghost use Rattle.std.specs.Prelude.{List, ℕ};

    ghost Value = { List (List ℕ × List ℕ) };

    ghost use Rattle.blip_frame.specs.Props.{pairs_of};

    ghost view = { λ p. pairs_of p.items.items };
}

impl Props {
    /// No properties. Allocates nothing.
    pub fn new(alloc: Global) -> Props
        ensures { result ≡ [] }
    {
        Props {
            items: Vec::new(alloc),
        }
    }

    /// The properties of a vector. Allocates nothing.
    pub fn from_vec(items: Vec<Prop>) -> Props
        ensures { result ≡ pairs_of items.items }
    {
        Props { items }
    }

    /// The vector of the properties. Allocates nothing.
    pub fn into_vec(self) -> Vec<Prop>
        ensures { pairs_of result.items ≡ self }
    {
        self.items
    }

    pub fn as_slice(&self) -> &[Prop]
        ensures value { pairs_of result.now ≡ self.now }
        ensures texts { All AreUtf8 self.now }
    {
        self.items.as_slice()
    }

    pub fn len(&self) -> usize
        ensures { result ≡ length self.now }
    {
        self.items.len()
    }

    pub fn is_empty(&self) -> bool
        ensures { IsTrue result ↔ (self.now ≡ []) }
    {
        self.items.is_empty()
    }

    /// The value of the first property with the key.
    pub fn get(&self, key: &str) -> Option<&str>
        ensures { option_copied result ≡ value_at self.now key.now }
    {
        value_of(self.items.as_slice(), key)
    }
}

fn value_of<'a>(props: &'a [Prop], key: &str) -> Option<&'a str>
    ensures { option_copied result ≡ value_at (pairs_of props.now) key.now }
{
    for prop in props {
        if prop.key.as_str() == key {
            return Some(prop.value.as_str());
        }
    }
    None
}
