//! Names that are put in their order, each once.

use crate::texts::write_all;
use log_views::in_order;
use sg_history::Name;
use sg_outside::Bytes;
use std::alloc::{AllocError, Global};
use std::test::Fail;

/// Names with a comma behind each.
fn names_of(alloc: Global, text: &str) -> Result<Vec<Name>, Fail> {
    let mut names = Vec::new(alloc);
    for word in text.split_terminator(',') {
        names.push(Name::parse(alloc, word)?)?;
    }
    Ok(names)
}

fn text_of(alloc: Global, names: &[Name]) -> Result<Bytes, AllocError> {
    let mut text = Bytes::new(alloc);
    for name in names {
        write_all(&[name.as_bytes(), b","], &mut text)?;
    }
    Ok(text)
}

/// Names, and the same in their order.
const ORDERS: [(&str, &str); 4] = [
    ("", ""),
    ("b,", "b,"),
    ("b,a,b,", "a,b,"),
    ("ab,b,B,a,b,ab,", "B,a,ab,b,"),
];

fn are_in_order(alloc: Global, names: &str, want: &str) -> Result<bool, Fail> {
    let names = in_order(names_of(alloc, names)?);
    Ok(text_of(alloc, names.as_slice())?.as_slice() == want.as_bytes())
}

#[test]
fn names_in_order(rt: HostRuntime) -> Result<(), Fail> {
    for (names, want) in ORDERS {
        assert!(rt; are_in_order(rt.alloc(), names, want)?, "{names}");
    }
    Ok(())
}
