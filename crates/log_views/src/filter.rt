//! Filters, by which channels are let through.

ghost use Rattle.std.specs.Prelude.{◌≡◌, ◌∷◌, IfOk};
ghost use Rattle.sg_history.specs.View as view;
ghost use Rattle.log_views.specs.Filters.{AreNamesOf, names_of};

use crate::sorted::{has_some, in_order};
use sg_history::{ChannelName, Channels};
use sg_outside::Memory;
use std::alloc::Global;
use std::marker::Model;

/// A filter whose names are searched by halves.
#[derive(Drop)]
pub struct Filter<'a> {
    given: &'a Option<Channels>,
    names: Vec<&'a str>,
}

impl<'a> Model for Filter<'a> {
    ghost use Rattle.std.specs.Prelude.{Option, List, ℕ};
    ghost use Rattle.log_views.specs.Filters.{AreNamesOf, names_of};

    ghost Value = { Option (List (List ℕ)) };

    ghost view = { λ f. f.given.now };

    ghost invariant = { λ f. AreNamesOf f.given.now (names_of f.names.items) };
}

/// The names of a list, in its order.
fn listed(alloc: Global, channels: &Channels) -> Result<Vec<&str>, Memory>
    ensures { IfOk result (λ list. names_of list.items ≡ channels.now) }
{
    let items = channels.as_slice();
    let mut list = Vec::with_capacity(alloc, items.len())?;
    for item in items {
        list.push(item.as_str())?;
    }
    Ok(list)
}

/// The names of a filter by rising bytes, each once.
fn names(alloc: Global, filter: &Option<Channels>) -> Result<Vec<&str>, Memory>
    ensures { IfOk result (λ list. AreNamesOf filter.now (names_of list.items)) }
{
    match filter {
        None => Ok(Vec::new(alloc)),
        Some(channels) => {
            let list = listed(alloc, channels)?;
            Ok(in_order(list))
        }
    }
}

impl<'a> Filter<'a> {
    /// The filter of these names, which it takes in n log n.
    pub fn new(alloc: Global, given: &'a Option<Channels>) -> Result<Filter<'a>, Memory>
        ensures { IfOk result (λ filter. filter ≡ given.now) }
    {
        let names = names(alloc, given)?;
        Ok(Filter { given, names })
    }

    /// Whether it lets a document in these channels through. Allocates nothing.
    pub fn passes(&self, channels: &[ChannelName]) -> bool
        ensures { result ≡ view.passes self.now (view.every ∷ channels.now) }
    {
        match self.given {
            None => true,
            Some(_) => has_some(self.names.as_slice(), channels),
        }
    }
}
