ghost use Rattle.std.specs.Prelude.{◌≡◌, ◌≢◌, ◌↔◌, option_map, IfOk, IfErr, IsOkAnd, IsTrue};
ghost use Rattle.serde_json.specs.View.{view};
ghost use Rattle.json_doc.specs.Tree.{Tree, object, is_object, get_member};
ghost use Rattle.json_doc.specs.Reading.{ReadsAs, IsNotJson, IsNotObject, IsReserved, IsDocument};
ghost use Rattle.json_doc.specs.View.{node_tree, members_fields};
ghost use Rattle.json_doc.specs.inner.Verdict.{IsVerdict};

use crate::Memory;
use crate::convert::{has_reserved, members_of};
use crate::node::{Members, Node};
use serde_json::{Map, Value};
use std::alloc::{AllocError, Global};
use std::marker::Model;

/// Why bytes are no document. `Memory` says that memory ran out, which may come at any bytes.
#[derive(Clone, Copy, Debug, PartialEq, Eq)]
pub enum DocFault {
    /// The bytes are no JSON, or nest deeper than 127.
    NotJson,
    /// They are JSON, and no object.
    NotObject,
    /// A top member has a name that begins with `_` and is not `_attachments`.
    Reserved,
    Memory,
}

impl From<AllocError> for DocFault {
    ghost use Rattle.std.specs.Prelude.{◌≡◌};
    ghost use Rattle.json_doc.specs.declared.doc.DocFault.{DocFault};
    ghost use Rattle.json_doc.specs.declared.doc.DocFault.TheVariants.{Memory};

    ghost from_gives = { λ _ fault. fault ≡ Memory };

    fn from(_error: AllocError) -> DocFault {
        DocFault::Memory
    }
}

/// A document: an object, which contracts see as its node.
#[derive(Drop)]
pub struct Doc {
    object: Node,
}

impl Model for Doc {
    ghost use Rattle.std.specs.Prelude.{◌≡◌, true};
    ghost use Rattle.json_doc.specs.declared.node.Node.{Node};
    ghost use Rattle.json_doc.specs.Tree.{is_object};
    ghost use Rattle.json_doc.specs.View.{node_tree};
    ghost use Rattle.json_doc.specs.contracts.node.Node as node;
    ghost use Rattle.std.specs.Coded.{codes};

    ghost Value = { Node };

    ghost coded = { Prim.hlevel (codes, node.the_row.coded) };

    ghost view = { λ d. d.object };

    ghost invariant = { λ d. is_object (node_tree d.object) ≡ true };
}

impl From<Members> for Doc {
    ghost use Rattle.std.specs.Prelude.{◌≡◌};
    ghost use Rattle.json_doc.specs.Tree.{object};
    ghost use Rattle.json_doc.specs.View.{node_tree, members_fields};

    ghost from_gives = { λ members doc. node_tree doc ≡ object (members_fields members) };

    fn from(members: Members) -> Doc {
        Doc {
            object: Node::Object(members),
        }
    }
}

impl Doc {
    /// The document as a node, which is an object.
    pub fn as_node(&self) -> &Node
        ensures value { result.now ≡ self.now }
        ensures object { IsTrue (is_object (node_tree result.now)) }
    {
        &self.object
    }

    /// The document's top members.
    pub fn members(&self) -> &Members
        ensures { node_tree self.now ≡ object (members_fields result.now) }
    {
        match &self.object {
            Node::Object(members) => members,
            _ => unreachable!(),
        }
    }

    /// The value of the top member with this name.
    pub fn get(&self, name: &str) -> Option<&Node>
        ensures { option_map (λ n. node_tree n.now) result
            ≡ get_member name.now (node_tree self.now) }
    {
        self.object.get(name)
    }

    /// Gives the top members back, which allocates nothing.
    pub fn into_members(self) -> Members
        ensures { node_tree self ≡ object (members_fields result) }
    {
        match self.object {
            Node::Object(members) => members,
            _ => unreachable!(),
        }
    }

    pub fn copy(&self, alloc: Global) -> Result<Doc, Memory>
        ensures { IfOk result (λ made. node_tree made ≡ node_tree self.now) }
    {
        Ok(Doc {
            object: self.object.copy(alloc)?,
        })
    }
}

/// Reads a document from JSON (RFC 8259, with at most 127 arrays and objects open at a place, and
/// each number within the range of a binary64 float). No bytes at all are read as the object with
/// no members. Of two members of one name the last stays. `NotJson` comes before `NotObject`, and
/// that before `Reserved`; `Memory` may come in the place of any answer.
pub fn read_doc(alloc: Global, bytes: &[u8]) -> Result<Doc, DocFault>
    ensures ok { IfOk result (λ doc. IsDocument bytes.now (node_tree doc)) }
    ensures accepts { (t : Tree) → IsDocument bytes.now t → result ≢ Err DocFault.Memory
        → IsOkAnd result (λ doc. node_tree doc ≡ t) }

    // But for `Memory`, each refusal comes exactly where it is due.
    ensures not_json { result ≢ Err DocFault.Memory
        → ((result ≡ Err DocFault.NotJson) ↔ IsNotJson bytes.now) }
    ensures not_object { result ≢ Err DocFault.Memory
        → ((result ≡ Err DocFault.NotObject) ↔ IsNotObject bytes.now) }
    ensures reserved { result ≢ Err DocFault.Memory
        → ((result ≡ Err DocFault.Reserved) ↔ IsReserved bytes.now) }
{
    judged(alloc, bytes)
}

/// The document or the refusal that is due.
fn judged(alloc: Global, bytes: &[u8]) -> Result<Doc, DocFault>
    ensures { IsVerdict bytes.now result }
{
    match value_of(alloc, bytes)? {
        Value::Object(members) => {
            if has_reserved(&members) {
                Err(DocFault::Reserved)
            } else {
                Ok(Doc {
                    object: Node::Object(members_of(alloc, &members)?),
                })
            }
        }
        _ => Err(DocFault::NotObject),
    }
}

/// What the bytes read as.
fn value_of(alloc: Global, bytes: &[u8]) -> Result<Value, DocFault>
    ensures ok { IfOk result (λ value. ReadsAs bytes.now (view value)) }
    ensures not_json { IfErr result (λ fault. (fault ≢ DocFault.Memory)
        → (fault ≡ DocFault.NotJson) × IsNotJson bytes.now) }
{
    if bytes.is_empty() {
        return Ok(Value::Object(Map::new(alloc)));
    }
    match Value::from_slice(alloc, bytes) {
        Ok(value) => Ok(value),
        Err(error) => {
            if error.is_memory() {
                Err(DocFault::Memory)
            } else {
                Err(DocFault::NotJson)
            }
        }
    }
}
