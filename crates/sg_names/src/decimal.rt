//! Decimal numbers: digits without a leading zero, or `0`.

ghost use Rattle.std.specs.Prelude.{◌≡◌, ◌≢◌, ◌++◌, ◌<◌, ◌^◌, ℕ, decimal, IfSome, IfNone, OnOk, OnErr};
ghost use Rattle.std.specs.List.{list_all};
ghost use Rattle.sg_names.specs.Decimal as decimals;

use itoa::Buffer;
use sg_outside::{Bytes, Memory};

/// Puts the decimal of a number at the end. An error leaves the bytes as they were.
pub fn write_decimal(n: u64, out: &mut Bytes) -> Result<(), Memory>
    ensures ok { OnOk result (out.new ≡ out.old ++ decimal n) }
    ensures err { OnErr result (out.new ≡ out.old) }
{
    let mut buffer = Buffer::new();
    out.extend_from_slice(buffer.format(n).as_bytes())
}

/// The number below 2^64 of which the text is the decimal.
pub fn read_decimal(text: &str) -> Option<u64>
    ensures some { IfSome result (λ n. text.now ≡ decimal n) }
    ensures none { IfNone result ((n : ℕ) → n < 2 ^ 64 → text.now ≢ decimal n) }
{
    match text.parse::<u64>() {
        Ok(n) => {
            let mut buffer = Buffer::new();
            if buffer.format(n) == text {
                Some(n)
            } else {
                None
            }
        }
        Err(_) => None,
    }
}

fn is_digit(byte: u8) -> bool
    ensures { result ≡ decimals.is_digit byte }
{
    byte >= b'0' && byte <= b'9'
}

fn all_digits(text: &[u8]) -> bool
    ensures { result ≡ list_all (λ d. decimals.is_digit d) text.now }
{
    text.iter().all(|b| is_digit(*b))
}

/// Whether the text is a decimal, of any length.
pub fn is_decimal(text: &[u8]) -> bool
    ensures { result ≡ decimals.is_decimal text.now }
{
    match text {
        [] => false,
        [first, further @ ..] => {
            is_digit(*first) && all_digits(further) && (*first != b'0' || further.is_empty())
        }
    }
}
