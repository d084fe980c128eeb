//! Lines of the tables of examples: a call, a blank, what it is given, `|`, and what it answers.

use blip_frame::{Prop, Props};
use sg_history::{TextFault, from_hex, read_decimal};
use sg_outside::Bytes;
use std::alloc::{AllocError, Global};

/// What stands before the first such mark, and behind it; nothing behind it where there is none.
pub fn cut(text: &str, mark: char) -> (&str, &str) {
    text.split_once(mark).unwrap_or((text, ""))
}

/// The call, what it is given and what it answers.
pub fn parts_of(line: &str) -> (&str, &str, &str) {
    let (asked, want) = cut(line, '|');
    let (call, input) = cut(asked, ' ');
    (call, input, want)
}

/// The number that a text is, or 0.
pub fn number_of(text: &str) -> u64 {
    read_decimal(text).unwrap_or(0)
}

/// A byte so many times.
pub fn write_many(byte: u8, count: u64, text: &mut Bytes) -> Result<(), AllocError> {
    for _ in 0..count {
        text.push(byte)?;
    }
    Ok(())
}

/// The bytes of a text in which `|` stands for a TAB, `/` for a line feed and `~` for the byte FF.
pub fn meant(alloc: Global, text: &str) -> Result<Bytes, AllocError> {
    let mut bytes = Bytes::new(alloc);
    for byte in text.as_bytes() {
        bytes.push(match *byte {
            b'|' => b'\t',
            b'/' => b'\n',
            b'~' => 0xff,
            byte => byte,
        })?;
    }
    Ok(bytes)
}

/// The bytes of a hexadecimal text.
pub fn bytes_of(alloc: Global, hex: &str) -> Result<Bytes, TextFault> {
    let mut bytes = Bytes::new(alloc);
    if !hex.is_empty() {
        from_hex(hex.as_bytes(), &mut bytes)?;
    }
    Ok(bytes)
}

/// Writes all of these, one after another.
pub fn write_all(parts: &[&[u8]], text: &mut Bytes) -> Result<(), AllocError> {
    for part in parts {
        text.extend_from_slice(part)?;
    }
    Ok(())
}

/// Properties that are given as `KEY=VALUE`, with `&` between each two.
pub fn props_of(alloc: Global, text: &str) -> Result<Props, AllocError> {
    let mut props = Vec::new(alloc);
    for pair in text.split('&') {
        if let Some((key, value)) = pair.split_once('=') {
            props.push(prop_of(alloc, key, value)?)?;
        }
    }
    Ok(Props::from_vec(props))
}

fn prop_of(alloc: Global, key: &str, value: &str) -> Result<Prop, AllocError> {
    let key = String::from_str(alloc, key)?;
    let value = String::from_str(alloc, value)?;
    Ok(Prop { key, value })
}

/// Each property as `KEY=VALUE&`.
pub fn write_props(props: &Props, text: &mut Bytes) -> Result<(), AllocError> {
    for prop in props.as_slice() {
        write_all(
            &[prop.key.as_bytes(), b"=", prop.value.as_bytes(), b"&"],
            text,
        )?;
    }
    Ok(())
}
