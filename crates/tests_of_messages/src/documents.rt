//! Documents and what they are read as.

use crate::table::{meant, number_of, parts_of, write_many};
use json_doc::{Doc, DocFault, DocText, Members, Node, Nodes, read_doc};
use sg_history::{write_decimal, write_hex};
use sg_outside::Bytes;
use std::alloc::{AllocError, Global};
use std::test::Fail;

/// Documents, one a line, with why each is refused, or the members of the copy of what is read, in order: the name and what it is,
/// an integer with its number, a text with its bytes in hexadecimal, and a list or an object with what is in it. A document is also
/// given as how many lists in one another its member `a` is.
const READ: &str = "\
doc |\n\
doc {}|\n\
doc  \t\r/{ } |\n\
doc {\"\":1}| int 1;\n\
doc {\"a_\":1}|a_ int 1;\n\
doc {\"a\":{\"_x\":1},\"b\":[{\"_id\":2}]}|a object(_x int 1;);b list(object;);\n\
doc {\"_attachments\":{}}|_attachments object();\n\
doc  |NotJson\n\
doc /\t|NotJson\n\
doc {|NotJson\n\
doc {}x|NotJson\n\
doc {}{}|NotJson\n\
doc {\"a\":1,}|NotJson\n\
doc {'a':1}|NotJson\n\
doc {\"a\":01}|NotJson\n\
doc {\"a\":NaN}|NotJson\n\
doc {\"a\":1e999}|NotJson\n\
doc [1e999]|NotJson\n\
doc {\"a\":\"\\ud800\"}|NotJson\n\
doc {\"a\":\"\u{1}\"}|NotJson\n\
doc {\"a\":\"~\"}|NotJson\n\
doc \u{feff}{}|NotJson\n\
doc {\"_id\":}|NotJson\n\
doc []|NotObject\n\
doc null|NotObject\n\
doc true|NotObject\n\
doc 1|NotObject\n\
doc \"{}\"|NotObject\n\
doc [{\"_id\":1}]|NotObject\n\
doc {\"_id\":1}|Reserved\n\
doc {\"_\":1}|Reserved\n\
doc {\"_attachments\":{},\"_attachments2\":1}|Reserved\n\
doc {\"_Attachments\":1}|Reserved\n\
doc {\"z\":1,\"\\u005frev\":1}|Reserved\n\
doc {\"a\":0}|a int 0;\n\
doc {\"a\":-1}|a int -1;\n\
doc {\"a\":9007199254740991}|a int 9007199254740991;\n\
doc {\"a\":-9007199254740991}|a int -9007199254740991;\n\
doc {\"a\":9007199254740992}|a opaque;\n\
doc {\"a\":-9007199254740992}|a opaque;\n\
doc {\"a\":9223372036854775808}|a opaque;\n\
doc {\"a\":-9223372036854775808}|a opaque;\n\
doc {\"a\":18446744073709551616}|a opaque;\n\
doc {\"a\":-0}|a opaque;\n\
doc {\"a\":1.0}|a opaque;\n\
doc {\"a\":1e3}|a opaque;\n\
doc {\"a\":-0.5E-2}|a opaque;\n\
doc {\"a\":1e308}|a opaque;\n\
doc {\"a\":{\"_x\":true,\"_x\":7}}|a object(_x int 7;);\n\
doc {\"a\":\"\"}|a text ;\n\
doc {\"a\":\"plain _id\"}|a text 706c61696e205f6964;\n\
doc {\"a\":\"\\u00e9\\n\"}|a text c3a90a;\n\
doc {\"a\":\"\\ud83d\\ude00\"}|a text f09f9880;\n\
doc {\"a\":\"a\\u0000b\"}|a text 610062;\n\
doc {\"b\":1, \"a\":[null,true,{\"_x\":[]},\"t\",2.5], \"\":3, \"b\":2, \"B\":false}| int 3;B false;a list(null;true;object;text 74;opaque;);b int 2;\n\
nested 126|a list(list;);\n\
nested 127|NotJson\n\
nested 200000|NotJson";

fn write_int(number: i64, text: &mut Bytes) -> Result<(), AllocError> {
    text.extend_from_slice(if number < 0 { b"int -" } else { b"int " })?;
    write_decimal(number.unsigned_abs(), text)
}

fn write_text(found: &DocText, text: &mut Bytes) -> Result<(), AllocError> {
    text.extend_from_slice(b"text ")?;
    write_hex(found.as_str().as_bytes(), text)
}

/// What a node is, apart from what is in it.
fn write_kind(node: &Node, text: &mut Bytes) -> Result<(), AllocError> {
    match node {
        Node::Null => text.extend_from_slice(b"null"),
        Node::Bool(is) => text.extend_from_slice(if *is { b"true" } else { b"false" }),
        Node::Int(number) => write_int(*number, text),
        Node::Opaque => text.extend_from_slice(b"opaque"),
        Node::Text(found) => write_text(found, text),
        Node::List(_) => text.extend_from_slice(b"list"),
        Node::Object(_) => text.extend_from_slice(b"object"),
    }
}

fn write_items(items: &Nodes, text: &mut Bytes) -> Result<(), AllocError> {
    text.push(b'(')?;
    for item in items.as_slice() {
        write_kind(item, text)?;
        text.push(b';')?;
    }
    text.push(b')')
}

fn write_inner(members: &Members, text: &mut Bytes) -> Result<(), AllocError> {
    text.push(b'(')?;
    for (name, node) in members.iter() {
        write_named(name, text)?;
        write_kind(node, text)?;
        text.push(b';')?;
    }
    text.push(b')')
}

fn write_named(name: &str, text: &mut Bytes) -> Result<(), AllocError> {
    text.extend_from_slice(name.as_bytes())?;
    text.push(b' ')
}

/// What a node is, with what is in it.
fn write_node(node: &Node, text: &mut Bytes) -> Result<(), AllocError> {
    write_kind(node, text)?;
    match node {
        Node::List(items) => write_items(items, text),
        Node::Object(members) => write_inner(members, text),
        _ => Ok(()),
    }
}

fn write_members(members: &Members, text: &mut Bytes) -> Result<(), AllocError> {
    for (name, node) in members.iter() {
        write_named(name, text)?;
        write_node(node, text)?;
        text.push(b';')?;
    }
    Ok(())
}

fn write_copy(alloc: Global, doc: &Doc, text: &mut Bytes) -> Result<(), AllocError> {
    let copy = doc.copy(alloc)?;
    write_members(copy.members(), text)
}

fn write_read(alloc: Global, bytes: &[u8], text: &mut Bytes) -> Result<(), AllocError> {
    match read_doc(alloc, bytes) {
        Ok(doc) => write_copy(alloc, &doc, text),
        Err(DocFault::NotJson) => text.extend_from_slice(b"NotJson"),
        Err(DocFault::NotObject) => text.extend_from_slice(b"NotObject"),
        Err(DocFault::Reserved) => text.extend_from_slice(b"Reserved"),
        Err(DocFault::Memory) => text.extend_from_slice(b"Memory"),
    }
}

/// What a text is read as.
fn write_doc(alloc: Global, doc: &str, text: &mut Bytes) -> Result<(), AllocError> {
    let bytes = meant(alloc, doc)?;
    write_read(alloc, bytes.as_slice(), text)
}

/// An object that holds as many lists in one another, so that one construct more is open.
fn write_lists(count: u64, bytes: &mut Bytes) -> Result<(), AllocError> {
    bytes.extend_from_slice(b"{\"a\":")?;
    write_many(b'[', count, bytes)?;
    write_many(b']', count, bytes)?;
    bytes.push(b'}')
}

fn write_nested(alloc: Global, count: u64, text: &mut Bytes) -> Result<(), AllocError> {
    let mut bytes = Bytes::new(alloc);
    write_lists(count, &mut bytes)?;
    write_read(alloc, bytes.as_slice(), text)
}

fn write_answer(
    alloc: Global,
    call: &str,
    input: &str,
    text: &mut Bytes,
) -> Result<(), AllocError> {
    match call {
        "doc" => write_doc(alloc, input, text),
        _ => write_nested(alloc, number_of(input), text),
    }
}

fn is_right(alloc: Global, line: &str) -> Result<bool, AllocError> {
    let mut text = Bytes::new(alloc);
    let (call, input, want) = parts_of(line);
    write_answer(alloc, call, input, &mut text)?;
    Ok(text.as_slice() == want.as_bytes())
}

#[test]
fn what_is_read(rt: HostRuntime) -> Result<(), Fail> {
    for line in READ.split('\n') {
        assert!(rt; is_right(rt.alloc(), line)?, "{line}");
    }
    Ok(())
}

/// A node that may not be there.
fn write_some(node: Option<&Node>, text: &mut Bytes) -> Result<(), AllocError> {
    match node {
        Some(node) => write_kind(node, text),
        None => text.extend_from_slice(b"none"),
    }
}

fn push_two(alloc: Global, nodes: &mut Nodes) -> Result<(), AllocError> {
    let mut word = DocText::from_str(alloc, "caf")?;
    word.push_str("\u{e9}")?;
    nodes.push(Node::Text(word))?;
    nodes.push(Node::Int(4))
}

/// A copy of a list of two.
fn list(alloc: Global) -> Result<Nodes, AllocError> {
    let mut nodes = Nodes::new(alloc);
    push_two(alloc, &mut nodes)?;
    nodes.copy(alloc)
}

fn insert(alloc: Global, members: &mut Members, name: &str, node: Node) -> Result<(), AllocError> {
    let name = String::from_str(alloc, name)?;
    members.insert(name, node)
}

fn insert_three(alloc: Global, members: &mut Members, items: Nodes) -> Result<(), AllocError> {
    insert(alloc, members, "n", Node::List(items))?;
    insert(alloc, members, "m", Node::Opaque)?;
    insert(alloc, members, "m", Node::Null)
}

/// A copy of members, of which one was inserted twice.
fn members(alloc: Global, items: Nodes) -> Result<Members, AllocError> {
    let mut members = Members::new(alloc);
    insert_three(alloc, &mut members, items)?;
    members.copy(alloc)
}

/// A copy of an object with these members.
fn object(alloc: Global, items: Nodes) -> Result<Node, AllocError> {
    let object = Node::Object(members(alloc, items)?);
    object.copy(alloc)
}

/// What is in an object that is made, and two of its members.
fn write_object(alloc: Global, items: Nodes, text: &mut Bytes) -> Result<(), AllocError> {
    let object = object(alloc, items)?;
    write_node(&object, text)?;
    write_some(object.get("m"), text)?;
    write_some(object.get("o"), text)
}

/// A list that is made, and an object with it.
fn write_made(alloc: Global, text: &mut Bytes) -> Result<(), AllocError> {
    let items = list(alloc)?;
    write_items(&items, text)?;
    write_object(alloc, items, text)
}

fn made(alloc: Global) -> Result<Bytes, AllocError> {
    let mut text = Bytes::new(alloc);
    write_made(alloc, &mut text)?;
    Ok(text)
}

#[test]
fn values_are_made(rt: HostRuntime) -> Result<(), Fail> {
    let text = made(rt.alloc())?;
    assert!(rt;
        text.as_slice() == b"(text 636166c3a9;int 4;)object(m null;n list;)nullnone".as_slice()
    );
    Ok(())
}
