//! A recorded session gives its wire, and each fault comes once.

use crate::table::{cut, meant, write_all};
use record_file::{Item, Items, Recorded, read_record};
use repl_messages::Version;
use sg_history::{BadLine, Name, ReadLog, Why, write_decimal, write_hex};
use sg_outside::Bytes;
use std::alloc::{AllocError, Global};
use std::test::Fail;

/// Texts, one a line: before each what it is read as. Of a recorded session that is the user, the version and the items; of another
/// text the first bad line and what is bad there.
const READ: &str = "\
ann Three idle ;sgsession 1/user|ann|3/idle/\n\
\u{e9} Two 0108 idle ff ;sgsession 1/user|\u{e9}|2/0108/idle/ff/\n\
ann Two ;sgsession 1/user|ann|2/\n\
1 Head;\n\
1 Head;/\n\
1 Head;sgsession 2/\n\
1 Head;sgsession 2\n\
1 Ending;sgsession 1\n\
2 Ending;sgsession 1/\n\
2 Ending;sgsession 1/user|ann|2\n\
2 Ending;sgsession 1/other\n\
2 Kind;sgsession 1//\n\
2 Kind;sgsession 1/other|ann|2/\n\
2 Kind;sgsession 1/other/\n\
2 Fields;sgsession 1/user/\n\
2 Fields;sgsession 1/user|ann/\n\
2 Fields;sgsession 1/user|ann|2|/\n\
2 Field(2);sgsession 1/user||9/\n\
2 Field(2);sgsession 1/user|~|2/\n\
2 Field(2);sgsession 1/user|a:b|2/\n\
2 Field(3);sgsession 1/user|ann|4/\n\
2 Field(3);sgsession 1/user|ann|/\n\
3 Ending;sgsession 1/user|ann|2/idle\n\
3 Ending;sgsession 1/user|ann|2/|\n\
3 Fields;sgsession 1/user|ann|2/idle|/\n\
3 Field(1);sgsession 1/user|ann|2//\n\
3 Field(1);sgsession 1/user|ann|2/Idle/\n\
4 Field(1);sgsession 1/user|ann|2/idle/0/\n\
5 Field(1);sgsession 1/user|ann|2/idle/00/0A/|/\n\
5 Fields;sgsession 1/user|ann|2/idle/00/00|/x";

fn write_user(user: &Name, version: Version, text: &mut Bytes) -> Result<(), AllocError> {
    let version: &[u8] = match version {
        Version::Two => b" Two ",
        Version::Three => b" Three ",
    };
    write_all(&[user.as_bytes(), version], text)
}

fn write_item(item: &Item, text: &mut Bytes) -> Result<(), AllocError> {
    match item {
        Item::Frame(frame) => write_hex(frame.as_slice(), text),
        Item::Idle => text.extend_from_slice(b"idle"),
    }
}

fn write_items(items: &[Item], text: &mut Bytes) -> Result<(), AllocError> {
    for item in items {
        write_item(item, text)?;
        text.push(b' ')?;
    }
    Ok(())
}

fn write_recorded(recorded: &Recorded, text: &mut Bytes) -> Result<(), AllocError> {
    write_user(&recorded.user, recorded.version, text)?;
    write_items(recorded.items.as_slice(), text)
}

/// A number in brackets.
fn write_number(number: u64, text: &mut Bytes) -> Result<(), AllocError> {
    text.push(b'(')?;
    write_decimal(number, text)?;
    text.push(b')')
}

/// What is wrong with a line.
fn write_why(why: &Why, text: &mut Bytes) -> Result<(), AllocError> {
    match why {
        Why::Head => text.extend_from_slice(b"Head"),
        Why::Ending => text.extend_from_slice(b"Ending"),
        Why::Kind => text.extend_from_slice(b"Kind"),
        Why::Fields => text.extend_from_slice(b"Fields"),
        Why::Field(number) => {
            text.extend_from_slice(b"Field")?;
            write_number(*number, text)
        }
        _ => text.extend_from_slice(b"other"),
    }
}

fn write_bad(place: u64, why: &Why, text: &mut Bytes) -> Result<(), AllocError> {
    write_decimal(place, text)?;
    text.push(b' ')?;
    write_why(why, text)
}

fn write_read(alloc: Global, record: &[u8], text: &mut Bytes) -> Result<(), AllocError> {
    match read_record(alloc, record) {
        Ok(recorded) => write_recorded(&recorded, text),
        Err(ReadLog::Bad(BadLine { place, why })) => write_bad(place, &why, text),
        Err(_) => text.extend_from_slice(b"no answer"),
    }
}

/// What a text is read as.
fn read_text(alloc: Global, record: &str) -> Result<Bytes, AllocError> {
    let record = meant(alloc, record)?;
    let mut text = Bytes::new(alloc);
    write_read(alloc, record.as_slice(), &mut text)?;
    Ok(text)
}

fn is_right(alloc: Global, line: &str) -> Result<bool, AllocError> {
    let (want, text) = cut(line, ';');
    Ok(read_text(alloc, text)?.as_slice() == want.as_bytes())
}

#[test]
fn what_is_recorded(rt: HostRuntime) -> Result<(), Fail> {
    for line in READ.split('\n') {
        assert!(rt; is_right(rt.alloc(), line)?, "{line}");
    }
    Ok(())
}

/// How many items there are where one is pushed to a vector of one.
fn items_given_back(alloc: Global) -> Result<usize, AllocError> {
    let mut items = Items::from_vec(vec![in alloc; Item::Idle]?);
    items.push(Item::Frame(Bytes::from_slice(alloc, b"x")?))?;
    Ok(items.into_vec().len())
}

#[test]
fn items_are_made_of_a_vector_and_give_it_back(rt: HostRuntime) -> Result<(), Fail> {
    assert!(rt; items_given_back(rt.alloc())? == 2);
    Ok(())
}
