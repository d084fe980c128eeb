//! The checksum that runs over a direction.

ghost use Rattle.std.specs.Prelude.{◌≡◌, slice_index};
ghost use Rattle.std.specs.List.{flat_map};
ghost use Rattle.blip_frame.specs.Checksum.{after_bits, byte_bits, checksum_after};

use crate::tables::{TABLE_1, TABLE_2, TABLE_3, TABLE_4, TABLE_5, TABLE_6, TABLE_7, TABLE_8};

/// What the register is turned by, in the beginning and at the end.
const ALL_ONES: u32 = 0xffff_ffff;

/// CRC-32 (IEEE 802.3: reflected, polynomial EDB88320, start and final exclusive or FFFFFFFF) of
/// all payloads of messages, replies and errors that went in one direction so far.
#[derive(Clone, Copy, PartialEq, Eq)]
pub struct Crc {
    pub value: u32,
}

impl Crc {
    /// The checksum of no bytes.
    pub fn new() -> Crc
        ensures { result.value ≡ 0 }
    {
        Crc { value: 0 }
    }

    /// The checksum once these bytes have followed.
    #[tactic(auto, unfolding(crate::specs::Checksum::checksum_after))]
    pub fn add(&mut self, bytes: &[u8])
        ensures { self.new.value ≡ checksum_after self.old.value bytes.now }
    {
        self.value = ALL_ONES ^ register_after(ALL_ONES ^ self.value, bytes);
    }
}

fn register_after(start: u32, bytes: &[u8]) -> u32
    ensures { result ≡ after_bits start (flat_map byte_bits bytes.now) }
{
    let (register, rest) = after_eights(start, bytes);
    after_each(register, rest)
}

/// Takes bytes in, eight at a time, and gives the register and the bytes that are left.
fn after_eights(start: u32, bytes: &[u8]) -> (u32, &[u8])
    ensures { after_bits result.0 (flat_map byte_bits result.1.now)
        ≡ after_bits start (flat_map byte_bits bytes.now) }
{
    let mut register = start;
    let mut rest = bytes;
    while let Some((eight, after)) = rest.split_first_chunk::<8>() {
        register = after_eight(register, eight);
        rest = after;
    }
    (register, rest)
}

fn after_each(start: u32, bytes: &[u8]) -> u32
    ensures { result ≡ after_bits start (flat_map byte_bits bytes.now) }
{
    let mut register = start;
    for byte in bytes {
        register = after_byte(register, *byte);
    }
    register
}

/// One look into each table: the byte that goes in first has the most bits behind it.
fn after_eight(register: u32, bytes: &[u8; 8]) -> u32
    ensures { result ≡ after_bits register (flat_map byte_bits bytes.now) }
{
    let mixed = u64::from(register) ^ u64::from_le_bytes(*bytes);
    let [b0, b1, b2, b3, b4, b5, b6, b7] = mixed.to_le_bytes();
    entry(&TABLE_1, b7)
        ^ entry(&TABLE_2, b6)
        ^ entry(&TABLE_3, b5)
        ^ entry(&TABLE_4, b4)
        ^ entry(&TABLE_5, b3)
        ^ entry(&TABLE_6, b2)
        ^ entry(&TABLE_7, b1)
        ^ entry(&TABLE_8, b0)
}

fn after_byte(register: u32, byte: u8) -> u32
    ensures { result ≡ after_bits register (byte_bits byte) }
{
    let mixed = register ^ u32::from(byte);
    entry(&TABLE_1, (mixed & 0xff) as u8) ^ (mixed >> 8)
}

fn entry(table: &[u32; 256], low: u8) -> u32
    ensures { result ≡ slice_index table.now low }
{
    table[low as usize]
}
