//! What the properties of a message say.

ghost use Rattle.std.specs.Prelude.{◌≡◌, codes};
ghost use Rattle.std.specs.Option.{option_copied};
ghost use Rattle.repl_messages.specs.Numbers as numbers;
ghost use Rattle.repl_messages.specs.Properties as properties;

use blip_frame::Props;
use sg_history::read_decimal;

/// A truth value: true where it is there and is neither `0` nor `false`.
fn truth_of(value: Option<&str>) -> bool
    ensures { result ≡ properties.truth_of (option_copied value.entry) }
{
    match value {
        Some(value) => !(value == "0" || value == "false"),
        None => false,
    }
}

/// Whether the property is true.
pub(crate) fn is_set(key: &str, props: &Props) -> bool
    ensures { result ≡ properties.is_property_set key.now props.now }
{
    truth_of(props.get(key))
}

/// The number from 1 to the limit of which the text is the decimal.
pub(crate) fn number_up_to(limit: u64, text: &str) -> Option<u64>
    ensures { result ≡ numbers.number_up_to limit text.now }
{
    match read_decimal(text) {
        Some(n) if n >= 1 && n <= limit => Some(n),
        _ => None,
    }
}
