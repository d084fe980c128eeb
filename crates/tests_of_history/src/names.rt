//! One happy path of each call, and texts at the edges of each grammar.

use crate::texts::cut;
use sg_names::*;
use sg_outside::Bytes;
use std::alloc::{AllocError, Global};
use std::cmp::Ordering;
use std::test::Fail;

/// Calls, one a line, each with a text and what it answers: the key that a text is; a key written again; the number of a text, and
/// whether it is a decimal; a text of a kind that is read, copied and written again; the kinds of names that a text is.
const TEXTS: &str = "\
key 3::5|low form\n\
key 5:9|bad\n\
key 07|bad\n\
key 5:2|5 2\n\
key 0|0 0\n\
key 5|5 5\n\
key 5:5|5 5\n\
key 5:0|bad\n\
key 0:0|bad\n\
key |bad\n\
key 1:2:3|low form\n\
key 18446744073709551615|18446744073709551615 18446744073709551615\n\
key 18446744073709551616|bad\n\
key 18446744073709551616:1|bad\n\
key 18446744073709551616::1|low form\n\
key 1:2:3:4|bad\n\
key 03::5|bad\n\
key ::|bad\n\
key :5|bad\n\
key 5:|bad\n\
key +5|bad\n\
key 5 |bad\n\
written 0|0\n\
written 5|5\n\
written 5:2|5:2\n\
written 18446744073709551615:1|18446744073709551615:1\n\
decimal 0|0.decimal\n\
decimal 10|10.decimal\n\
decimal 18446744073709551615|18446744073709551615.decimal\n\
decimal 18446744073709551616|.decimal\n\
decimal 00|.\n\
decimal 01|.\n\
decimal |.\n\
decimal +1|.\n\
decimal 1a|.\n\
channels -|-\n\
channels !,*,a,ab,b,é|!,*,a,ab,b,é\n\
channels a:b,a=b|a:b,a=b\n\
names a,b|a,b\n\
revs 1-a,2-b,2-b|1-a,2-b,2-b\n\
rev 1--|1--\n\
rev 4294967295-~!|4294967295-~!\n\
grants a=b=c,ro=x,role:a=x,s=y|a=b=c,ro=x,role:a=x,s=y\n\
grants a=y,a!=x|a=y,a!=x\n\
roles a=b,a=c,b=a|a=b,a=c,b=a\n\
hex 0123456789abcdef|0123456789abcdef\n\
channels |Bad\n\
channels b,a|Bad\n\
channels a,a|Bad\n\
channels a,|Bad\n\
channels ,a|Bad\n\
channels -,a|Bad\n\
names a,b,b|Bad\n\
names a:b|Bad\n\
revs 1-a,0-b|Bad\n\
rev 0-a|Bad\n\
rev 01-a|Bad\n\
rev 4294967296-a|Bad\n\
rev 1-|Bad\n\
rev 1|Bad\n\
grants a=d,a=c|Bad\n\
grants role:a=x,b=y|Bad\n\
grants a=-|Bad\n\
grants other:a=x|Bad\n\
roles a=c,a=b|Bad\n\
roles a=b=c|Bad\n\
roles a|Bad\n\
hex |Bad\n\
hex abc|Bad\n\
hex AB|Bad\n\
hex 0g|Bad\n\
names_of a|document client channel user digest \n\
names_of -|document client digest \n\
names_of a,b|document client \n\
names_of a:b|document client channel digest \n\
names_of a=b|document client channel digest \n\
names_of _a|client channel user digest \n\
names_of a b|document client channel user \n\
names_of é|document client channel user \n\
names_of |\n\
names_of a\tb|\n\
names_of a\u{7f}|\n\
names_of 0123456789012345678901234567890123456789012345678901234567890123|document client channel user digest ";

/// Two numbers with a blank between.
fn write_two(one: u64, two: u64, out: &mut Bytes) -> Result<(), AllocError> {
    write_decimal(one, out)?;
    out.push(b' ')?;
    write_decimal(two, out)
}

/// The key that a text is.
fn write_key(text: &str, out: &mut Bytes) -> Result<(), AllocError> {
    match Key::parse(text) {
        Ok(key) => write_two(key.by, key.seq, out),
        Err(KeyFault::LowForm) => out.extend_from_slice(b"low form"),
        Err(KeyFault::BadKey) => out.extend_from_slice(b"bad"),
    }
}

/// A key written again.
fn key_again(text: &str, out: &mut Bytes) -> Result<(), AllocError> {
    match Key::parse(text) {
        Ok(key) => key.write(out),
        Err(_) => Ok(()),
    }
}

fn write_number(text: &str, out: &mut Bytes) -> Result<(), AllocError> {
    match read_decimal(text) {
        Some(number) => write_decimal(number, out),
        None => Ok(()),
    }
}

/// The number of a text, and whether it is a decimal.
fn write_number_of(text: &str, out: &mut Bytes) -> Result<(), AllocError> {
    write_number(text, out)?;
    out.push(b'.')?;
    write_if(is_decimal(text.as_bytes()), b"decimal", out)
}

fn channels_again(alloc: Global, text: &str, out: &mut Bytes) -> Result<(), TextFault> {
    Ok(Channels::parse(alloc, text)?.copy(alloc)?.write(out)?)
}

fn names_again(alloc: Global, text: &str, out: &mut Bytes) -> Result<(), TextFault> {
    Ok(Names::parse(alloc, text)?.copy(alloc)?.write(out)?)
}

fn revs_again(alloc: Global, text: &str, out: &mut Bytes) -> Result<(), TextFault> {
    Ok(Revs::parse(alloc, text)?.copy(alloc)?.write(out)?)
}

fn grants_again(alloc: Global, text: &str, out: &mut Bytes) -> Result<(), TextFault> {
    Ok(Grants::parse(alloc, text)?.copy(alloc)?.write(out)?)
}

fn roles_again(alloc: Global, text: &str, out: &mut Bytes) -> Result<(), TextFault> {
    Ok(RoleGrants::parse(alloc, text)?.copy(alloc)?.write(out)?)
}

fn rev_again(alloc: Global, text: &str, out: &mut Bytes) -> Result<(), TextFault> {
    Ok(RevId::parse(alloc, text)?.copy(alloc)?.write(out)?)
}

fn hex_again(alloc: Global, text: &str, out: &mut Bytes) -> Result<(), TextFault> {
    let mut bytes = Bytes::new(alloc);
    from_hex(text.as_bytes(), &mut bytes)?;
    Ok(write_hex(bytes.as_slice(), out)?)
}

/// Reads a text as one of these kinds and writes it again.
fn again(alloc: Global, kind: &str, text: &str, out: &mut Bytes) -> Result<(), TextFault> {
    match kind {
        "channels" => channels_again(alloc, text, out),
        "names" => names_again(alloc, text, out),
        "revs" => revs_again(alloc, text, out),
        "grants" => grants_again(alloc, text, out),
        "roles" => roles_again(alloc, text, out),
        "rev" => rev_again(alloc, text, out),
        _ => hex_again(alloc, text, out),
    }
}

/// The same, or why a text is not of this kind.
fn write_again(alloc: Global, kind: &str, text: &str, out: &mut Bytes) -> Result<(), AllocError> {
    match again(alloc, kind, text, out) {
        Ok(()) => Ok(()),
        Err(TextFault::Bad) => out.extend_from_slice(b"Bad"),
        Err(TextFault::Memory) => Err(AllocError),
    }
}

fn write_if(is: bool, word: &[u8], out: &mut Bytes) -> Result<(), AllocError> {
    out.extend_from_slice(if is { word } else { b"" })
}

/// The kinds of names that a text is, of those with which rows begin.
fn write_first(alloc: Global, text: &str, out: &mut Bytes) -> Result<(), AllocError> {
    write_if(DocId::parse(alloc, text).is_ok(), b"document ", out)?;
    write_if(Client::parse(alloc, text).is_ok(), b"client ", out)
}

/// The kinds of names that a text is, of the others.
fn write_others(alloc: Global, text: &str, out: &mut Bytes) -> Result<(), AllocError> {
    write_if(ChannelName::parse(alloc, text).is_ok(), b"channel ", out)?;
    write_if(Name::parse(alloc, text).is_ok(), b"user ", out)?;
    write_if(Digest::parse(alloc, text).is_ok(), b"digest ", out)
}

/// The kinds of names that a text is.
fn write_kinds(alloc: Global, text: &str, out: &mut Bytes) -> Result<(), AllocError> {
    write_first(alloc, text, out)?;
    write_others(alloc, text, out)
}

fn write_answer(alloc: Global, call: &str, text: &str, out: &mut Bytes) -> Result<(), AllocError> {
    match call {
        "key" => write_key(text, out),
        "written" => key_again(text, out),
        "decimal" => write_number_of(text, out),
        "names_of" => write_kinds(alloc, text, out),
        kind => write_again(alloc, kind, text, out),
    }
}

fn answer(alloc: Global, call: &str, text: &str) -> Result<Bytes, AllocError> {
    let mut out = Bytes::new(alloc);
    write_answer(alloc, call, text, &mut out)?;
    Ok(out)
}

fn is_right(alloc: Global, line: &str) -> Result<bool, AllocError> {
    let (asked, want) = cut(line, '|');
    let (call, text) = cut(asked, ' ');
    Ok(answer(alloc, call, text)?.as_slice() == want.as_bytes())
}

#[test]
fn texts_of_each_grammar(rt: HostRuntime) -> Result<(), Fail> {
    for line in TEXTS.split('\n') {
        assert!(rt; is_right(rt.alloc(), line)?, "{line}");
    }
    let key = Key { by: 5, seq: 2 };
    assert!(rt; key.order(&Key { by: 5, seq: 3 }) == Ordering::Less);
    assert!(rt; key.order(&Key { by: 4, seq: 4 }) == Ordering::Greater);
    Ok(())
}
