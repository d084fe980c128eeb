ghost use Rattle.std.specs.Prelude.{◌≡◌, IfOk};
ghost use Rattle.serde_json.specs.View.{view, items_view, members_view, number_view};
ghost use Rattle.serde_json.specs.Find.{as_i64};
ghost use Rattle.json_doc.specs.Reading as reading;
ghost use Rattle.json_doc.specs.Reading.{tree_of, trees_of, fields_of, integer_or_opaque};
ghost use Rattle.json_doc.specs.View.{node_tree, nodes_trees, members_fields};

use crate::Memory;
use crate::node::{Members, Node, Nodes};
use crate::text::DocText;
use serde_json::{Map, Number, Value};
use std::alloc::Global;

/// The greatest integer up to which each is a float of its own, ECMAScript's `MAX_SAFE_INTEGER`.
const MAX_SAFE_INTEGER: i64 = 9007199254740991;

/// Whether the gateway keeps the name to itself.
fn is_reserved(name: &str) -> bool
    ensures { result ≡ reading.is_reserved name.now }
{
    name.as_bytes().starts_with(b"_") && name != "_attachments"
}

/// Whether a member has a reserved name.
pub(crate) fn has_reserved(members: &Map<String, Value>) -> bool
    ensures { result ≡ reading.has_reserved (members_view members.now.entries) }
{
    for (name, _) in members.iter() {
        if is_reserved(name.as_str()) {
            return true;
        }
    }
    false
}

fn number_node(number: &Number) -> Node
    ensures { node_tree result ≡ integer_or_opaque (as_i64 (number_view number.now)) }
{
    match number.as_i64() {
        Some(integer) => integer_node(integer),
        None => Node::Opaque,
    }
}

fn integer_node(integer: i64) -> Node
    ensures { node_tree result ≡ integer_or_opaque (Some integer) }
{
    if -MAX_SAFE_INTEGER <= integer && integer <= MAX_SAFE_INTEGER {
        Node::Int(integer)
    } else {
        Node::Opaque
    }
}

#[cycle(convert)]
fn node_of(alloc: Global, value: &Value) -> Result<Node, Memory>
    ensures { IfOk result (λ node. node_tree node ≡ tree_of (view value.now)) }
{
    match value {
        Value::Null => Ok(Node::Null),
        Value::Bool(truth) => Ok(Node::Bool(*truth)),
        Value::Number(number) => Ok(number_node(number)),
        Value::String(text) => Ok(Node::Text(DocText::from_str(alloc, text.as_str())?)),
        Value::Array(items) => Ok(Node::List(nodes_of(alloc, items)?)),
        Value::Object(members) => Ok(Node::Object(members_of(alloc, members)?)),
    }
}

#[cycle(convert)]
fn nodes_of(alloc: Global, items: &Vec<Value>) -> Result<Nodes, Memory>
    ensures { IfOk result (λ nodes. nodes_trees nodes ≡ trees_of (items_view items.now.items)) }
{
    let mut nodes = Nodes::with_capacity(alloc, items.len())?;
    for item in items {
        nodes.push(node_of(alloc, item)?)?;
    }
    Ok(nodes)
}

/// The members of an object, their values as nodes.
#[cycle(convert)]
pub(crate) fn members_of(alloc: Global, members: &Map<String, Value>) -> Result<Members, Memory>
    ensures { IfOk result
        (λ made. members_fields made ≡ fields_of (members_view members.now.entries)) }
{
    let mut made = Members::new(alloc);
    for (key, value) in members.iter() {
        let name = key.clone()?;
        made.insert(name, node_of(alloc, value)?)?;
    }
    Ok(made)
}
