//! Lower-case hexadecimal texts of bytes.

ghost use Rattle.std.specs.Prelude.{◌≡◌, ◌++◌, ◌<◌, ◌/◌, ◌%◌, ◌&&◌, false, ℕ, List, length, take, IsTrue, IfSome, IfNone, OnOk, OnErr};
ghost use Rattle.std.specs.List.{list_all};
ghost use Rattle.sg_names.specs.Hex as hex;
ghost use Rattle.sg_names.specs.Hex.{HasRead};

use crate::fault::TextFault;
use sg_outside::{Bytes, Memory};

fn hex_digit(n: u8) -> u8
    requires { n < 16 }
    ensures { result ≡ hex.hex_digit n }
{
    if n < 10 { b'0' + n } else { b'a' - 10 + n }
}

/// Puts two digits for each byte at the end, up to one for which there is no memory.
fn write_while(bytes: &[u8], out: &mut Bytes) -> Result<(), Memory>
    ensures ok { OnOk result (out.new ≡ out.old ++ hex.hex_text bytes.now) }
    ensures err { OnErr result (take (length out.old) out.new ≡ out.old) }
{
    for byte in bytes {
        out.push(hex_digit(*byte / 16))?;
        out.push(hex_digit(*byte % 16))?;
    }
    Ok(())
}

/// Puts the text of the bytes at the end, two digits a byte. An error leaves `out` as it was.
pub fn write_hex(bytes: &[u8], out: &mut Bytes) -> Result<(), Memory>
    ensures ok { OnOk result (out.new ≡ out.old ++ hex.hex_text bytes.now) }
    ensures err { OnErr result (out.new ≡ out.old) }
{
    let start = out.len();
    let written = write_while(bytes, out);
    if written.is_err() {
        out.truncate(start);
    }
    written
}

fn is_hex_digit(byte: u8) -> bool
    ensures { result ≡ hex.is_hex_digit byte }
{
    (byte >= b'0' && byte <= b'9') || (byte >= b'a' && byte <= b'f')
}

fn all_hex_digits(text: &[u8]) -> bool
    ensures { result ≡ list_all (λ b. hex.is_hex_digit b) text.now }
{
    text.iter().all(|b| is_hex_digit(*b))
}

/// The value of each byte as a digit; 255 of one that is none.
const VALUES: [u8; 256] = [
    255, 255, 255, 255, 255, 255, 255, 255, 255, 255, 255, 255, 255, 255, 255, 255, 255, 255, 255,
    255, 255, 255, 255, 255, 255, 255, 255, 255, 255, 255, 255, 255, 255, 255, 255, 255, 255, 255,
    255, 255, 255, 255, 255, 255, 255, 255, 255, 255, 0, 1, 2, 3, 4, 5, 6, 7, 8, 9, 255, 255, 255,
    255, 255, 255, 255, 255, 255, 255, 255, 255, 255, 255, 255, 255, 255, 255, 255, 255, 255, 255,
    255, 255, 255, 255, 255, 255, 255, 255, 255, 255, 255, 255, 255, 255, 255, 255, 255, 10, 11,
    12, 13, 14, 15, 255, 255, 255, 255, 255, 255, 255, 255, 255, 255, 255, 255, 255, 255, 255, 255,
    255, 255, 255, 255, 255, 255, 255, 255, 255, 255, 255, 255, 255, 255, 255, 255, 255, 255, 255,
    255, 255, 255, 255, 255, 255, 255, 255, 255, 255, 255, 255, 255, 255, 255, 255, 255, 255, 255,
    255, 255, 255, 255, 255, 255, 255, 255, 255, 255, 255, 255, 255, 255, 255, 255, 255, 255, 255,
    255, 255, 255, 255, 255, 255, 255, 255, 255, 255, 255, 255, 255, 255, 255, 255, 255, 255, 255,
    255, 255, 255, 255, 255, 255, 255, 255, 255, 255, 255, 255, 255, 255, 255, 255, 255, 255, 255,
    255, 255, 255, 255, 255, 255, 255, 255, 255, 255, 255, 255, 255, 255, 255, 255, 255, 255, 255,
    255, 255, 255, 255, 255, 255, 255, 255, 255, 255, 255, 255, 255, 255, 255, 255, 255, 255, 255,
    255, 255, 255, 255,
];

/// The value of a digit; none of another byte.
fn value_of(digit: u8) -> Option<u8>
    ensures some { IfSome result (λ n. (n < 16) × (hex.hex_digit n ≡ digit)) }
    ensures none { IfNone result (hex.is_hex_digit digit ≡ false) }
{
    let value = VALUES[digit as usize];
    if value < 16 { Some(value) } else { None }
}

/// The byte of two digits; none where one is another byte.
fn byte_of(high: u8, low: u8) -> Option<u8>
    ensures some { IfSome result (λ b. (hex.hex_digit (b / 16) ≡ high)
        × (hex.hex_digit (b % 16) ≡ low)) }
    ensures none { IfNone result ((hex.is_hex_digit high && hex.is_hex_digit low) ≡ false) }
{
    let high = value_of(high)?;
    let low = value_of(low)?;
    Some(high * 16 + low)
}

/// Memory ran out, where the text is one of digits, else its refusal.
fn no_memory(text: &[u8]) -> TextFault
    ensures bad { result ≡ TextFault.Bad → list_all (λ b. hex.is_hex_digit b) text.now ≡ false }
    ensures memory { result ≡ TextFault.Memory
        → IsTrue (list_all (λ b. hex.is_hex_digit b) text.now) }
{
    if all_hex_digits(text) {
        TextFault::Memory
    } else {
        TextFault::Bad
    }
}

/// Puts the bytes of a text of digits in pairs at the end, up to one that has another byte, or for which there
/// is no memory.
#[inline(always)]
fn read_while(text: &[u8], out: &mut Bytes) -> Result<(), TextFault>
    requires { length text.now % 2 ≡ 0 }
    ensures ok { OnOk result (HasRead text.now (length text.now / 2) out.old out.new) }
    ensures bad { result ≡ Err TextFault.Bad → list_all (λ b. hex.is_hex_digit b) text.now ≡ false }
    ensures memory { result ≡ Err TextFault.Memory
        → IsTrue (list_all (λ b. hex.is_hex_digit b) text.now) }
    ensures err { OnErr result (take (length out.old) out.new ≡ out.old) }
{
    if out.reserve(text.len() / 2).is_err() {
        return Err(no_memory(text));
    }
    for i in 0..text.len() / 2 {
        let Some(byte) = byte_of(text[2 * i], text[2 * i + 1]) else {
            return Err(TextFault::Bad);
        };
        if out.push(byte).is_err() {
            return Err(no_memory(text));
        }
    }
    Ok(())
}

/// Puts the bytes of a text at the end: `Bad` exactly where it is empty, odd in length or has a byte that is
/// no lower-case hexadecimal digit. A refusal leaves `out` as it was.
#[inline(always)]
pub fn from_hex(text: &[u8], out: &mut Bytes) -> Result<(), TextFault>
    ensures ok { OnOk result ((bytes : List ℕ) × (text.now ≡ hex.hex_text bytes)
        × (out.new ≡ out.old ++ bytes)) }
    ensures grammar { OnOk result (IsTrue (hex.is_hex text.now)) }
    ensures bad { result ≡ Err TextFault.Bad → ¬ IsTrue (hex.is_hex text.now) }
    ensures outside { ¬ IsTrue (hex.is_hex text.now) → result ≡ Err TextFault.Bad }
    ensures err { OnErr result (out.new ≡ out.old) }
{
    if text.is_empty() || text.len() % 2 != 0 {
        return Err(TextFault::Bad);
    }
    let start = out.len();
    let read = read_while(text, out);
    if read.is_err() {
        out.truncate(start);
    }
    read
}
