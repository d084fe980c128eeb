//! Varints: numbers as bytes of seven bits each, the lowest first.

ghost use Rattle.std.specs.Prelude.{◌≡◌, ◌++◌, ◌↔◌, ◌≤◌, length, List, ℕ, Ok, Err, MatchResult, IfOk, OnOk, OnErr, IsOkAnd};
ghost use Rattle.blip_frame.specs.Varint.{number_at, IsRead, EndsInside, varint};

use sg_outside::{Bytes, Memory};
use std::marker::Model;

/// Why no number is read.
#[derive(Clone, Copy, Debug, PartialEq, Eq)]
pub enum VarintFault {
    /// The bytes end inside the varint.
    Short,
    /// There is no value below 2^64 in ten bytes.
    BadVarint,
}

/// Reads the number at the front, in its shortest form or in a longer one of at most ten bytes, and
/// gives the bytes after it.
pub fn read_varint(bytes: &[u8]) -> Result<(u64, &[u8]), VarintFault>
    // What is read is a varint of the number.
    ensures found { IfOk result
        (λ x. (front : List ℕ) × IsRead front x.0 × (bytes.now ≡ front ++ x.1.now)) }
    // Each varint is read, whatever follows it.
    ensures only { (front rest : List ℕ) (n : ℕ) → IsRead front n → bytes.now ≡ front ++ rest
        → IsOkAnd result (λ x. (x.0 ≡ n) × (x.1.now ≡ rest)) }
    ensures short { (result ≡ Err VarintFault.Short) ↔ EndsInside bytes.now }
    ensures exact { MatchResult result (λ x. number_at bytes.now ≡ Ok (x.0, x.1.now))
        (λ fault. number_at bytes.now ≡ Err fault) }
{
    number_of(bytes)
}

fn number_of(bytes: &[u8]) -> Result<(u64, &[u8]), VarintFault>
    ensures { MatchResult result (λ x. number_at bytes.now ≡ Ok (x.0, x.1.now))
        (λ fault. number_at bytes.now ≡ Err fault) }
{
    let mut value: u64 = 0;
    let mut scale: u64 = 1;
    for (i, byte) in bytes.iter().enumerate() {
        if i == 9 && *byte > 1 {
            return Err(VarintFault::BadVarint);
        }
        value += u64::from(*byte & 0x7f) * scale;
        if *byte < 128 {
            return Ok((value, &bytes[i + 1..]));
        }
        scale *= 128;
    }
    Err(VarintFault::Short)
}

/// The shortest varint of a number. Contracts see its bytes.
#[derive(Drop)]
pub struct Varint {
    bytes: [u8; 10],
    len: usize,
}

impl Model for Varint {
    ghost use Rattle.std.specs.Prelude.{List, ℕ, ◌≤◌, take};

    ghost Value = { List ℕ };

    ghost view = { λ v. take v.len v.bytes };

    ghost invariant = { λ v. v.len ≤ 10 };
}

impl Varint {
    pub fn new(n: u64) -> Varint
        ensures { result ≡ varint n }
    {
        let mut bytes = [0; 10];
        let mut len = 0;
        let mut rest = n;
        while rest >= 128 {
            bytes[len] = (rest % 128) as u8 + 128;
            len += 1;
            rest /= 128;
        }
        bytes[len] = rest as u8;
        Varint {
            bytes,
            len: len + 1,
        }
    }

    pub fn as_slice(&self) -> &[u8]
        ensures value { result.now ≡ self.now }
        ensures few { length result.now ≤ 10 }
    {
        &self.bytes[..self.len]
    }
}

/// Puts the shortest varint of a number at the end.
pub fn write_varint(n: u64, out: &mut Bytes) -> Result<(), Memory>
    ensures ok { OnOk result (out.new ≡ out.old ++ varint n) }
    ensures err { OnErr result (out.new ≡ out.old) }
{
    out.extend_from_slice(Varint::new(n).as_slice())
}
