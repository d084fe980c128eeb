//! Texts of tables.

use sg_history::{read_decimal, write_decimal};
use sg_outside::Bytes;
use std::alloc::{AllocError, Global};

/// What stands before the first such mark, and behind it; nothing behind it where there is none.
pub fn cut(text: &str, mark: char) -> (&str, &str) {
    text.split_once(mark).unwrap_or((text, ""))
}

/// The number that a text is, or 0.
pub fn number_of(text: &str) -> u64 {
    read_decimal(text).unwrap_or(0)
}

/// Writes all of these, one after another.
pub fn write_all(parts: &[&[u8]], text: &mut Bytes) -> Result<(), AllocError> {
    for part in parts {
        text.extend_from_slice(part)?;
    }
    Ok(())
}

/// A byte so many times.
pub fn write_many(byte: u8, count: u64, text: &mut Bytes) -> Result<(), AllocError> {
    for _ in 0..count {
        text.push(byte)?;
    }
    Ok(())
}

/// Two numbers, with a mark between.
pub fn write_two(one: u64, mark: u8, two: u64, text: &mut Bytes) -> Result<(), AllocError> {
    write_decimal(one, text)?;
    text.push(mark)?;
    write_decimal(two, text)
}

/// Three texts in one.
pub fn joined(alloc: Global, one: &str, two: &str, three: &str) -> Result<String, AllocError> {
    let mut text = String::from_str(alloc, one)?;
    text.push_str(two)?;
    text.push_str(three)?;
    Ok(text)
}
