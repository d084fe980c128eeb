//! What is shown of a document.

ghost use Rattle.std.specs.Prelude.{◌≡◌, ◌&&◌, ◌∷◌};
ghost use Rattle.std.specs.List.{list_any};
ghost use Rattle.sg_history.specs.History.{among};
ghost use Rattle.sg_history.specs.View as view;
ghost use Rattle.log_views.specs.Sorted.{AreSorted};
ghost use Rattle.log_views.specs.States.{state_in, shown_in, view_by};

use crate::documents::DocState;
use crate::filter::Filter;
use crate::sorted::has_some;
use sg_history::Channels;

fn is_shown(channels: &Channels, filter: &Filter<'_>, document: DocState<'_>) -> bool
    requires { AreSorted channels.now }
    ensures { result ≡ (list_any (λ c. among channels.now c)
        (view.every ∷ document.entry.effects.channels.now)
        && view.passes filter.now (view.every ∷ document.entry.effects.channels.now)) }
{
    let of = document.effects.channels.as_slice();
    has_some(channels.as_slice(), of) && filter.passes(of)
}

/// A document as it is, where the filter lets it through to a user with these channels, which rise by
/// bytes. Allocates nothing.
pub fn shown<'a>(
    channels: &Channels,
    filter: &Filter<'_>,
    document: Option<DocState<'a>>,
) -> Option<DocState<'a>>
    requires { AreSorted channels.now }
    ensures { shown_in result
        ≡ view_by (λ c. among channels.now c) filter.now (state_in document.entry) }
{
    match document {
        Some(document) if is_shown(channels, filter, document) => Some(document),
        _ => None,
    }
}
