//! Values.

ghost use Rattle.std.specs.Prelude.{◌≡◌, IfOk};
ghost use Rattle.json_doc.specs.View.{node_tree, row_trees, members_fields};
ghost use Rattle.sync_values.specs.declared.value.Value as Value;
ghost use Rattle.sync_values.specs.Values.{value_of, values_of, members_of};

use crate::Memory;
use crate::by_name::ByName;
use crate::shared::Shared;
use crate::text::Text;
use json_doc::{DocText, Members, Node};
use sqlite_items::Items;
use std::alloc::Global;

/// A value. Of an opaque number nothing is known but that it is a number. Of two members of one
/// name the later counts. Its lists, members and longer texts are shared, so that no copy of them is made.
#[derive(Drop)]
pub enum Value {
    Undefined,
    Null,
    Bool(bool),
    Integer(i64),
    Opaque,
    Text(Text),
    List(Shared<Items<Value>>),
    Object(Shared<ByName<Value>>),
}

impl Value {
    /// The same again, with the same texts, lists and members.
    pub fn share(&self) -> Result<Value, Memory>
        ensures { IfOk result (λ made. made ≡ self.now) }
    {
        match self {
            Value::Undefined => Ok(Value::Undefined),
            Value::Null => Ok(Value::Null),
            Value::Bool(truth) => Ok(Value::Bool(*truth)),
            Value::Integer(n) => Ok(Value::Integer(*n)),
            Value::Opaque => Ok(Value::Opaque),
            Value::Text(text) => Ok(Value::Text(text.share()?)),
            Value::List(values) => Ok(Value::List(values.share()?)),
            Value::Object(members) => Ok(Value::Object(members.share()?)),
        }
    }

    /// Whether the value is a list or an object that nothing else holds.
    pub fn is_sole(&self) -> bool {
        match self {
            Value::List(values) => values.is_sole(),
            Value::Object(members) => members.is_sole(),
            _ => false,
        }
    }

    /// A text.
    pub fn text(alloc: Global, text: &str) -> Result<Value, Memory>
        ensures { IfOk result (λ made. made ≡ Value.Text text.now) }
    {
        Ok(Value::Text(Text::from_str(alloc, text)?))
    }

    /// A list of these.
    pub(crate) fn list(alloc: Global, values: Items<Value>) -> Result<Value, Memory>
        ensures { IfOk result (λ made. made ≡ Value.List values) }
    {
        Ok(Value::List(Shared::new(alloc, values)?))
    }

    /// An object with these members.
    pub fn object(alloc: Global, members: ByName<Value>) -> Result<Value, Memory>
        ensures { IfOk result (λ made. made ≡ Value.Object members) }
    {
        Ok(Value::Object(Shared::new(alloc, members)?))
    }
}

/// Values, the same again.
pub(crate) fn share_all(alloc: Global, values: &[Value]) -> Result<Items<Value>, Memory>
    ensures { IfOk result (λ made. made ≡ values.now) }
{
    let mut made = Items::new(alloc);
    for value in values {
        match value.share() {
            Ok(value) => made.push(value)?,
            Err(error) => {
                drop(made);
                return Err(error);
            }
        }
    }
    Ok(made)
}

/// What a node of a document is as a value.
#[cycle(convert)]
pub fn value_of(alloc: Global, node: &Node) -> Result<Value, Memory>
    ensures { IfOk result (λ value. value ≡ value_of (node_tree node.now)) }
{
    match node {
        Node::Null => Ok(Value::Null),
        Node::Bool(truth) => Ok(Value::Bool(*truth)),
        Node::Int(n) => Ok(Value::Integer(*n)),
        Node::Opaque => Ok(Value::Opaque),
        Node::Text(text) => Value::text(alloc, text.as_str()),
        Node::List(nodes) => Value::list(alloc, values_of(alloc, nodes.as_slice())?),
        Node::Object(members) => Value::object(alloc, members_of(alloc, members)?),
    }
}

#[cycle(convert)]
fn values_of(alloc: Global, nodes: &[Node]) -> Result<Items<Value>, Memory>
    ensures { IfOk result (λ values. values ≡ values_of (row_trees nodes.now)) }
{
    let mut made = Vec::with_capacity(alloc, nodes.len())?;
    let mut left = nodes;
    while let [node, rest @ ..] = left {
        made.push(value_of(alloc, node)?)?;
        left = rest;
    }
    Ok(Items::from_vec(made))
}

#[cycle(convert)]
fn members_of(alloc: Global, members: &Members) -> Result<ByName<Value>, Memory>
    ensures { IfOk result (λ made. made ≡ members_of (members_fields members.now)) }
{
    let mut made = ByName::new(alloc);
    for (name, node) in members.iter() {
        let name = DocText::from_str(alloc, name.as_str())?;
        made.push(name, value_of(alloc, node)?)?;
    }
    Ok(made)
}
