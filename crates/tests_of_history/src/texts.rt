//! Texts of tables.

use sg_history::{BadLine, ReadLog, Why, read_decimal, write_decimal};
use sg_outside::Bytes;
use std::alloc::{AllocError, Global};

/// The bytes of a text in which `|` stands for a TAB, `/` and `;` for a line feed and `~` for the byte FF.
pub fn tabbed(alloc: Global, text: &str) -> Result<Bytes, AllocError> {
    let mut bytes = Bytes::new(alloc);
    for byte in text.as_bytes() {
        bytes.push(match *byte {
            b'|' => b'\t',
            b'/' | b';' => b'\n',
            b'~' => 0xff,
            byte => byte,
        })?;
    }
    Ok(bytes)
}

/// Writes all of these, one after another.
pub fn write_all(parts: &[&[u8]], text: &mut Bytes) -> Result<(), AllocError> {
    for part in parts {
        text.extend_from_slice(part)?;
    }
    Ok(())
}

/// What stands before the first such mark, and behind it; nothing behind it where there is none.
pub fn cut(text: &str, mark: char) -> (&str, &str) {
    text.split_once(mark).unwrap_or((text, ""))
}

/// The number that a text is, or 0.
pub fn number_of(text: &str) -> u64 {
    read_decimal(text).unwrap_or(0)
}

/// A word and a number behind it.
pub fn write_number(word: &[u8], number: u64, text: &mut Bytes) -> Result<(), AllocError> {
    text.extend_from_slice(word)?;
    write_decimal(number, text)
}

/// A word and a number in brackets.
fn write_numbered(word: &[u8], number: u64, text: &mut Bytes) -> Result<(), AllocError> {
    write_number(word, number, text)?;
    text.push(b')')
}

/// What is wrong with a line.
fn write_why(why: &Why, text: &mut Bytes) -> Result<(), AllocError> {
    match why {
        Why::Head => text.extend_from_slice(b"Head"),
        Why::Ending => text.extend_from_slice(b"Ending"),
        Why::Kind => text.extend_from_slice(b"Kind"),
        Why::Fields => text.extend_from_slice(b"Fields"),
        Why::Field(number) => write_numbered(b"Field(", *number, text),
        Why::Rule(number) => write_numbered(b"Rule(", *number, text),
        _ => text.extend_from_slice(b"other"),
    }
}

/// The first bad line of a file and what is bad there.
pub fn write_bad(fault: &ReadLog, text: &mut Bytes) -> Result<(), AllocError> {
    match fault {
        ReadLog::Bad(BadLine { place, why }) => write_bad_line(*place, why, text),
        _ => text.extend_from_slice(b"no answer"),
    }
}

/// A place and what is bad there.
fn write_bad_line(place: u64, why: &Why, text: &mut Bytes) -> Result<(), AllocError> {
    write_decimal(place, text)?;
    text.push(b' ')?;
    write_why(why, text)
}
