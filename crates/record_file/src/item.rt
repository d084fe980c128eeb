//! What a recorded wire gave.

ghost use Rattle.std.specs.Prelude.{◌≡◌, ◌++◌, ◌∷◌, [], Some, map, IfOk, OnOk, OnErr};
ghost use Rattle.sg_outside.specs.MemWire.{got_of, traffic};
ghost use Rattle.record_file.specs.Record as texts;

use sg_outside::{Bytes, Input, MemWire, Memory, Wire};
use std::alloc::Global;
use std::marker::Model;

/// What one call of `recv` gave.
#[derive(Drop)]
pub enum Item {
    /// A frame.
    Frame(Bytes),
    /// Nothing was there yet.
    Idle,
}

/// What calls of `recv` gave, in order.
#[derive(Drop)]
pub struct Items {
    items: Vec<Item>,
}

impl Model for Items {
    ghost use Rattle.std.specs.Prelude.{List};
    ghost use Rattle.record_file.specs.declared.item.Item.{Item};

    ghost Value = { List Item };

    ghost view = { λ l. l.items.items };
}

/// The input that gives this.
fn input_of(item: Item) -> Input
    ensures { result ≡ texts.input_of item }
{
    match item {
        Item::Frame(frame) => Input::Frame(frame),
        Item::Idle => Input::Idle,
    }
}

/// The inputs that give these.
fn inputs_of(alloc: Global, items: Vec<Item>) -> Result<Vec<Input>, Memory>
    ensures { IfOk result (λ v. v.items ≡ map (λ i. texts.input_of i) items.items) }
{
    items.into_iter().map(|item| input_of(item)).collect(alloc)
}

impl Items {
    /// None. Allocates nothing.
    pub fn new(alloc: Global) -> Items
        ensures { result ≡ [] }
    {
        Items {
            items: Vec::new(alloc),
        }
    }

    /// The list of a vector's items. Allocates nothing.
    pub fn from_vec(items: Vec<Item>) -> Items
        ensures { result ≡ items.items }
    {
        Items { items }
    }

    /// The vector of the items. Allocates nothing.
    pub fn into_vec(self) -> Vec<Item>
        ensures { result.items ≡ self }
    {
        self.items
    }

    pub fn as_slice(&self) -> &[Item]
        ensures { result.now ≡ self.now }
    {
        self.items.as_slice()
    }

    /// Puts one item at the end.
    pub fn push(&mut self, item: Item) -> Result<(), Memory>
        ensures ok { OnOk result (self.new ≡ self.old ++ item ∷ []) }
        ensures err { OnErr result (self.new ≡ self.old) }
    {
        self.items.push(item)?;
        Ok(())
    }

    /// The wire in memory that gives these one after another, and then its end. No frame is copied; out of memory
    /// the items are let go.
    pub fn into_wire(self, alloc: Global) -> Result<MemWire, Memory>
        ensures { IfOk result
            (λ w. ⟦<MemWire as Wire>⟧.recorded w ≡ Some (traffic (texts.results_of self) 0 [] [])) }
    {
        let inputs = inputs_of(alloc, self.items)?;
        Ok(MemWire::new(alloc, inputs))
    }
}
