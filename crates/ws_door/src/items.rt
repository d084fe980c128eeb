//! Items of a header's value.

ghost use Rattle.std.specs.Prelude.{◌≡◌, reverse};
ghost use Rattle.ws_door.specs.Items.{skip_spaces, trim_spaces};

fn trim_front(mut item: &[u8]) -> &[u8]
    ensures { result.now ≡ skip_spaces item.now }
{
    while let [first, rest @ ..] = item
        && *first == b' '
    {
        item = rest;
    }
    item
}

fn trim_back(mut item: &[u8]) -> &[u8]
    ensures { result.now ≡ reverse (skip_spaces (reverse item.now)) }
{
    while let [rest @ .., last] = item
        && *last == b' '
    {
        item = rest;
    }
    item
}

/// The item without the spaces around it.
pub(crate) fn trim(item: &[u8]) -> &[u8]
    ensures { result.now ≡ trim_spaces item.now }
{
    trim_back(trim_front(item))
}
