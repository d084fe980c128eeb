//! Payloads of messages: the length of the property block, the block, and the body.

ghost use Rattle.std.specs.Prelude.{◌≡◌, ◌≢◌, ◌<◌, ◌^◌, ◌++◌, ◌∷◌, ◌%◌, ◌≤◌, true, false, length, drop, count_by, ◌==◌, List, ℕ, Ok, Err, MatchResult, IfOk, IfErr, OnOk, OnErr, IfSome, All};
ghost use Rattle.std.specs.List.{list_all};
ghost use Rattle.std.specs.Str.{is_utf8};
ghost use Rattle.std.specs.String.{string_bytes};
ghost use Rattle.blip_frame.specs.Varint.{AddsSome};
ghost use Rattle.blip_frame.specs.Props.{Pair, pairs_of, pair_of, keys_of, stands_twice};
ghost use Rattle.blip_frame.specs.Payload.{HasNoNul, IsPayload, payload_at, block_at, is_closed, closed_texts, paired, text_len, block_of, closed, closed_pair, front_text, payload_text};

use crate::props::{Prop, Props};
use crate::varint::{VarintFault, read_varint, write_varint};
use memchr::memchr;
use sg_outside::{Bytes, Memory};
use std::alloc::{AllocError, AllocFailed, Global};
use std::collections::BTreeSet;
use std::mem;

/// A message's properties and body.
#[derive(Drop)]
pub struct Payload {
    pub props: Props,
    pub body: Bytes,
}

/// Why bytes are no payload.
#[derive(Clone, Copy, Debug, PartialEq, Eq)]
pub enum PayloadFault {
    /// The bytes end inside the length, or before the block does.
    Short,
    /// The length has no value below 2^64 in ten bytes.
    BadVarint,
    /// The block has bytes, and the last is no NUL.
    NotClosed,
    /// The texts are odd in number.
    Odd,
    /// A text is not UTF-8.
    NotText,
    /// A key stands twice.
    Twice,
    /// Memory ran out.
    Memory,
}

impl From<VarintFault> for PayloadFault {
    ghost use Rattle.std.specs.Prelude.{◌≡◌};
    ghost use Rattle.blip_frame.specs.Payload.{payload_fault_of};

    ghost from_gives = { λ fault r. r ≡ payload_fault_of fault };

    fn from(fault: VarintFault) -> PayloadFault {
        match fault {
            VarintFault::Short => PayloadFault::Short,
            VarintFault::BadVarint => PayloadFault::BadVarint,
        }
    }
}

impl From<AllocError> for PayloadFault {
    ghost use Rattle.std.specs.Prelude.{◌≡◌};
    ghost use Rattle.blip_frame.specs.declared.payload.PayloadFault.TheVariants.{Memory};

    ghost from_gives = { λ _ r. r ≡ Memory };

    fn from(_refused: AllocError) -> PayloadFault {
        PayloadFault::Memory
    }
}

impl<T: Drop> From<AllocFailed<T>> for PayloadFault {
    ghost use Rattle.std.specs.Prelude.{◌≡◌};
    ghost use Rattle.blip_frame.specs.declared.payload.PayloadFault.TheVariants.{Memory};

    ghost from_gives = { λ _ r. r ≡ Memory };

    fn from(_refused: AllocFailed<T>) -> PayloadFault {
        PayloadFault::Memory
    }
}

/// Reads the properties and the body of a message.
pub fn read_payload(alloc: Global, bytes: &[u8]) -> Result<Payload, PayloadFault>
    // The payloads of the grammar are read, unless memory runs out, and nothing else.
    ensures found { IfOk result (λ p. IsPayload bytes.now p.props p.body) }
    ensures only { (props : List Pair) (body : List ℕ) → IsPayload bytes.now props body
        → MatchResult result (λ p. (p.props ≡ props) × (p.body ≡ body))
        (λ fault. fault ≡ PayloadFault.Memory) }

    // A fault is the first one.
    ensures ok { IfOk result (λ p. payload_at bytes.now ≡ Ok (p.props, p.body)) }
    ensures err { IfErr result
        (λ fault. fault ≢ PayloadFault.Memory → payload_at bytes.now ≡ Err fault) }
{
    payload_of(alloc, bytes)
}

fn payload_of(alloc: Global, bytes: &[u8]) -> Result<Payload, PayloadFault>
    ensures ok { IfOk result (λ p. payload_at bytes.now ≡ Ok (p.props, p.body)) }
    ensures err { IfErr result
        (λ fault. fault ≢ PayloadFault.Memory → payload_at bytes.now ≡ Err fault) }
{
    let (props, body) = props_and_body(alloc, bytes)?;
    let body = Bytes::from_slice(alloc, body)?;
    Ok(Payload { props, body })
}

/// The same of a buffer, which then is the body's, and which stays as it was at a fault.
pub fn take_payload(alloc: Global, bytes: &mut Bytes) -> Result<Payload, PayloadFault>
    ensures ok { IfOk result (λ p. payload_at bytes.old ≡ Ok (p.props, p.body)) }
    ensures err { IfErr result
        (λ fault. fault ≢ PayloadFault.Memory → payload_at bytes.old ≡ Err fault) }
    ensures unchanged { OnErr result (bytes.new ≡ bytes.old) }
{
    let (props, body) = props_and_body(alloc, bytes.as_slice())?;
    let start = bytes.len() - body.len();
    let mut body = mem::replace(bytes, Bytes::new(alloc));
    body.drop_front(start);
    Ok(Payload { props, body })
}

#[tactic(auto, unfolding(crate::specs::Payload::payload_at))]
fn props_and_body(alloc: Global, bytes: &[u8]) -> Result<(Props, &[u8]), PayloadFault>
    ensures ok { IfOk result (λ x. payload_at bytes.now ≡ Ok (x.0, x.1.now)) }
    ensures last { IfOk result (λ x. (front : List ℕ) × (bytes.now ≡ front ++ x.1.now)) }
    ensures err { IfErr result
        (λ fault. fault ≢ PayloadFault.Memory → payload_at bytes.now ≡ Err fault) }
{
    let (size, rest) = read_varint(bytes)?;
    if size > rest.len() as u64 {
        return Err(PayloadFault::Short);
    }
    let (block, body) = rest.split_at(size as usize);
    let props = props_of(alloc, block)?;
    Ok((props, body))
}

/// The properties of a block, which are made once nothing in it is at fault.
#[tactic(auto, unfolding(crate::specs::Payload::block_at))]
fn props_of(alloc: Global, block: &[u8]) -> Result<Props, PayloadFault>
    ensures ok { IfOk result (λ p. block_at block.now ≡ Ok p) }
    ensures err { IfErr result
        (λ fault. fault ≢ PayloadFault.Memory → block_at block.now ≡ Err fault) }
{
    if !is_closed(block) {
        return Err(PayloadFault::NotClosed);
    }
    let texts = count_texts(block);
    if texts % 2 != 0 {
        return Err(PayloadFault::Odd);
    }
    if !are_texts(block) {
        return Err(PayloadFault::NotText);
    }
    if has_twice(alloc, block)? {
        return Err(PayloadFault::Twice);
    }
    let props = pairs(alloc, block, texts / 2)?;
    Ok(Props::from_vec(props))
}

fn is_closed(block: &[u8]) -> bool
    ensures { result ≡ is_closed block.now }
{
    match block {
        [] => true,
        [.., last] => *last == 0,
    }
}

fn count_texts(block: &[u8]) -> usize
    ensures { result ≡ length (closed_texts block.now) }
{
    count_nuls(block)
}

fn count_nuls(block: &[u8]) -> usize
    ensures { result ≡ count_by (λ b. b == 0) block.now }
{
    block.iter().filter(|b| **b == 0).count()
}

/// Whether the texts of a block are UTF-8: its NULs are, so that all of it is where they are.
fn are_texts(block: &[u8]) -> bool
    requires { is_closed block.now ≡ true }
    ensures { result ≡ list_all is_utf8 (closed_texts block.now) }
{
    match str::from_utf8(block) {
        Ok(_) => true,
        Err(_) => false,
    }
}

/// Whether a key stands twice.
fn has_twice(alloc: Global, block: &[u8]) -> Result<bool, AllocError>
    requires closed { is_closed block.now ≡ true }
    requires even { length (closed_texts block.now) % 2 ≡ 0 }
    ensures { IfOk result (λ twice. twice ≡ stands_twice (keys_of (paired (closed_texts block.now)))) }
{
    let mut seen: BTreeSet<&[u8]> = BTreeSet::new(alloc);
    let mut rest = block;
    while !rest.is_empty() {
        let (key, after_key) = first_text(rest);
        let (_, after) = first_text(after_key);
        if !seen.insert(key)? {
            return Ok(true);
        }
        rest = after;
    }
    Ok(false)
}

/// The keys and values of a block in turn, of which there are about so many.
fn pairs(alloc: Global, block: &[u8], count: usize) -> Result<Vec<Prop>, AllocError>
    requires closed { is_closed block.now ≡ true }
    requires even { length (closed_texts block.now) % 2 ≡ 0 }
    requires texts { list_all is_utf8 (closed_texts block.now) ≡ true }
    ensures { IfOk result (λ v. pairs_of v.items ≡ paired (closed_texts block.now)) }
{
    let mut props = Vec::with_capacity(alloc, count)?;
    let mut rest = block;
    while !rest.is_empty() {
        let (key, after_key) = first_text(rest);
        let (value, after) = first_text(after_key);
        props.push(Prop {
            key: text_of(alloc, key)?,
            value: text_of(alloc, value)?,
        })?;
        rest = after;
    }
    Ok(props)
}

/// The first text of a block, and what follows its NUL.
fn first_text(block: &[u8]) -> (&[u8], &[u8])
    requires closed { is_closed block.now ≡ true }
    requires some { 0 < length block.now }
    ensures texts { closed_texts block.now ≡ result.0.now ∷ closed_texts result.1.now }
    ensures rest { is_closed result.1.now ≡ true }
    ensures shorter { length result.1.now < length block.now }
{
    let len = text_len(block);
    let (text, _) = block.split_at(len);
    let (_, rest) = block.split_at(len + 1);
    (text, rest)
}

fn text_of(alloc: Global, text: &[u8]) -> Result<String, AllocError>
    requires { is_utf8 text.now ≡ true }
    ensures { IfOk result (λ s. string_bytes s ≡ text.now) }
{
    match str::from_utf8(text) {
        Ok(text) => String::from_str(alloc, text),
        Err(_) => unreachable!(),
    }
}

/// How many bytes stand before the first NUL.
fn text_len(block: &[u8]) -> usize
    ensures { result ≡ text_len block.now }
{
    memchr(0, block).unwrap_or(block.len())
}

/// Puts what stands before the body at the end of `out`: the length of the property block, and the
/// block. Out of memory `out` stays as it was.
pub fn write_front(props: &Props, out: &mut Bytes) -> Result<(), Memory>
    ensures ok { OnOk result (out.new ≡ out.old ++ front_text props.now) }
    ensures below { OnOk result (length (block_of props.now) < 2 ^ 64) }
    ensures payload { (body : List ℕ) → payload_text props.now body ≡ front_text props.now ++ body }
    ensures err { OnErr result (out.new ≡ out.old) }
{
    let start = out.len();
    match push_front(props.as_slice(), out) {
        Ok(()) => Ok(()),
        Err(refused) => {
            out.truncate(start);
            Err(refused)
        }
    }
}

/// The same, which out of memory may leave some bytes there.
fn push_front(props: &[Prop], out: &mut Bytes) -> Result<(), Memory>
    ensures ok { OnOk result (out.new ≡ out.old ++ front_text (pairs_of props.now)) }
    ensures err { OnErr result (AddsSome out.old out.new) }
    ensures below { OnOk result (length (block_of (pairs_of props.now)) < 2 ^ 64) }
{
    // A block past 2^64 bytes does not fit memory.
    let Some(len) = block_len(props) else {
        return Err(AllocError);
    };
    write_varint(len, out)?;
    push_block(props, out)
}

/// Puts a payload at the end of `out`: the length of the property block, the block, and the body. At
/// lack of memory `out` stays as it was.
pub fn write_payload(payload: &Payload, out: &mut Bytes) -> Result<(), Memory>
    ensures ok { OnOk result
        (out.new ≡ out.old ++ payload_text payload.now.props payload.now.body) }
    ensures again { All HasNoNul payload.now.props
        → stands_twice (keys_of payload.now.props) ≡ false
        → OnOk result
        (payload_at (payload_text payload.now.props payload.now.body)
        ≡ Ok (payload.now.props, payload.now.body)) }
    ensures err { OnErr result (out.new ≡ out.old) }
{
    let _ = payload.props.as_slice();
    let body = payload.body.as_slice();
    let start = out.len();
    write_front(&payload.props, out)?;
    match out.extend_from_slice(body) {
        Ok(()) => Ok(()),
        Err(refused) => {
            out.truncate(start);
            Err(refused)
        }
    }
}

/// How many bytes the block has, where that is below 2^64.
fn block_len(props: &[Prop]) -> Option<u64>
    ensures len { IfSome result (λ len. len ≡ length (block_of (pairs_of props.now))) }
    ensures below { IfSome result (λ len. len < 2 ^ 64) }
{
    let mut len: u64 = 0;
    for prop in props {
        len = len.checked_add(pair_len(prop)?)?;
    }
    Some(len)
}

fn pair_len(prop: &Prop) -> Option<u64>
    ensures { IfSome result (λ len. len ≡ length (closed_pair (pair_of prop.now))) }
{
    let key = (prop.key.len() as u64).checked_add(1)?;
    let value = (prop.value.len() as u64).checked_add(1)?;
    key.checked_add(value)
}

fn push_block(props: &[Prop], out: &mut Bytes) -> Result<(), Memory>
    ensures ok { OnOk result (out.new ≡ out.old ++ block_of (pairs_of props.now)) }
    ensures err { OnErr result (AddsSome out.old out.new) }
{
    for prop in props {
        push_pair(prop, out)?;
    }
    Ok(())
}

fn push_pair(prop: &Prop, out: &mut Bytes) -> Result<(), Memory>
    ensures ok { OnOk result (out.new ≡ out.old ++ closed_pair (pair_of prop.now)) }
    ensures err { OnErr result (AddsSome out.old out.new) }
{
    push_text(prop.key.as_str(), out)?;
    push_text(prop.value.as_str(), out)
}

fn push_text(text: &str, out: &mut Bytes) -> Result<(), Memory>
    ensures ok { OnOk result (out.new ≡ out.old ++ closed text.now) }
    ensures err { OnErr result (AddsSome out.old out.new) }
{
    out.extend_from_slice(text.as_bytes())?;
    out.push(0)
}
