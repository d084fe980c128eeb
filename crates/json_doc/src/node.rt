ghost use Rattle.std.specs.Prelude.{◌≡◌, ◌==◌, option_map, IfOk, OnOk, OnErr, string_bytes};
ghost use Rattle.std.specs.List.Sorted.{IsStrictlySortedBy};
ghost use Rattle.std.specs.Map.{keys_of};
ghost use Rattle.std.specs.String.{string_cmp};
ghost use Rattle.json_doc.specs.Tree.{no_trees, add_tree, tree_count, no_fields, get_field, put_field, field_count, is_object, get_member};
ghost use Rattle.json_doc.specs.View.{node_tree, nodes_trees, members_fields, row_trees, entry_fields};

use crate::Memory;
use crate::text::DocText;
use std::alloc::Global;
use std::collections::BTreeMap;
use std::collections::btree_map::Iter;

/// A value of a document, which `node_tree` shows as a tree. `Opaque` is a number that is no
/// integer between -9007199254740991 and 9007199254740991: one written with a fraction or an
/// exponent, `-0`, or a greater one.
#[cycle(node)]
#[derive(Drop)]
pub enum Node {
    Null,
    Bool(bool),
    Int(i64),
    Opaque,
    Text(DocText),
    List(Nodes),
    Object(Members),
}

/// A list of nodes, which `nodes_trees` shows as trees.
#[cycle(node)]
#[derive(Drop)]
pub struct Nodes {
    items: Vec<Node>,
}

/// The members of an object, which `members_fields` shows: each name once, in the order of the
/// names' bytes.
#[cycle(node)]
#[derive(Drop)]
pub struct Members {
    map: BTreeMap<String, Node>,
}

impl From<Vec<Node>> for Nodes {
    ghost use Rattle.std.specs.Prelude.{◌≡◌};
    ghost use Rattle.json_doc.specs.View.{nodes_trees, row_trees};

    ghost from_gives = { λ items made. nodes_trees made ≡ row_trees items.items };

    fn from(items: Vec<Node>) -> Nodes {
        Nodes { items }
    }
}

impl From<BTreeMap<String, Node>> for Members {
    ghost use Rattle.std.specs.Prelude.{◌≡◌};
    ghost use Rattle.json_doc.specs.View.{members_fields, entry_fields};

    ghost from_gives = { λ map made. members_fields made ≡ entry_fields map.entries };

    fn from(map: BTreeMap<String, Node>) -> Members {
        Members { map }
    }
}

impl Node {
    /// Whether the node is an object.
    pub fn is_object(&self) -> bool
        ensures { result ≡ is_object (node_tree self.now) }
    {
        matches!(self, Node::Object(_))
    }

    /// The value of an object's member with this name; none where the node is no object.
    pub fn get(&self, name: &str) -> Option<&Node>
        ensures { option_map (λ n. node_tree n.now) result
            ≡ get_member name.now (node_tree self.now) }
    {
        match self {
            Node::Object(members) => members.get(name),
            _ => None,
        }
    }

    #[cycle(copy)]
    pub fn copy(&self, alloc: Global) -> Result<Node, Memory>
        ensures { IfOk result (λ made. node_tree made ≡ node_tree self.now) }
    {
        match self {
            Node::Null => Ok(Node::Null),
            Node::Bool(truth) => Ok(Node::Bool(*truth)),
            Node::Int(number) => Ok(Node::Int(*number)),
            Node::Opaque => Ok(Node::Opaque),
            Node::Text(text) => Ok(Node::Text(text.copy(alloc)?)),
            Node::List(nodes) => Ok(Node::List(nodes.copy(alloc)?)),
            Node::Object(members) => Ok(Node::Object(members.copy(alloc)?)),
        }
    }
}

impl Nodes {
    /// Gives the nodes back, which allocates nothing.
    pub fn into_vec(self) -> Vec<Node>
        ensures { row_trees result.items ≡ nodes_trees self }
    {
        self.items
    }

    /// The empty list, which allocates nothing.
    pub fn new(alloc: Global) -> Nodes
        ensures { nodes_trees result ≡ no_trees }
    {
        Nodes {
            items: Vec::new(alloc),
        }
    }

    /// No nodes, with room for this many.
    pub fn with_capacity(alloc: Global, count: usize) -> Result<Nodes, Memory>
        ensures { IfOk result (λ made. nodes_trees made ≡ no_trees) }
    {
        Ok(Nodes {
            items: Vec::with_capacity(alloc, count)?,
        })
    }

    /// The nodes in order.
    pub fn as_slice(&self) -> &[Node]
        ensures { row_trees result.now ≡ nodes_trees self.now }
    {
        self.items.as_slice()
    }

    pub fn len(&self) -> usize
        ensures { result ≡ tree_count (nodes_trees self.now) }
    {
        self.as_slice().len()
    }

    /// Adds the node at the end; out of memory the list is as before.
    pub fn push(&mut self, node: Node) -> Result<(), Memory>
        ensures ok { OnOk result
            (nodes_trees self.new ≡ add_tree (nodes_trees self.old) (node_tree node)) }
        ensures err { OnErr result (nodes_trees self.new ≡ nodes_trees self.old) }
    {
        self.items.push(node)?;
        Ok(())
    }

    #[cycle(copy)]
    pub fn copy(&self, alloc: Global) -> Result<Nodes, Memory>
        ensures { IfOk result (λ made. nodes_trees made ≡ nodes_trees self.now) }
    {
        let mut made = Nodes::with_capacity(alloc, self.items.len())?;
        for node in &self.items {
            made.push(node.copy(alloc)?)?;
        }
        Ok(made)
    }

    pub fn is_empty(&self) -> bool
        ensures { result ≡ (tree_count (nodes_trees self.now) == 0) }
    {
        self.len() == 0
    }
}

impl Members {
    /// Gives the members back as a map, which allocates nothing.
    pub fn into_map(self) -> BTreeMap<String, Node>
        ensures { entry_fields result.entries ≡ members_fields self }
    {
        self.map
    }

    /// No members, which allocates nothing.
    pub fn new(alloc: Global) -> Members
        ensures { members_fields result ≡ no_fields }
    {
        Members {
            map: BTreeMap::new(alloc),
        }
    }

    /// The value of the member with this name.
    pub fn get(&self, name: &str) -> Option<&Node>
        ensures { option_map (λ n. node_tree n.now) result
            ≡ get_field name.now (members_fields self.now) }
    {
        self.map.get(name)
    }

    pub fn len(&self) -> usize
        ensures { result ≡ field_count (members_fields self.now) }
    {
        self.map.len()
    }

    pub fn is_empty(&self) -> bool
        ensures { result ≡ (field_count (members_fields self.now) == 0) }
    {
        self.len() == 0
    }

    /// Puts the value at the name, in the place of one that is there; out of memory the
    /// members are as before.
    pub fn insert(&mut self, name: String, node: Node) -> Result<(), Memory>
        ensures ok { OnOk result (members_fields self.new
            ≡ put_field (string_bytes name) (node_tree node) (members_fields self.old)) }
        ensures err { OnErr result (members_fields self.new ≡ members_fields self.old) }
    {
        drop(self.map.insert(name, node)?);
        Ok(())
    }

    /// The members in the order of their names' bytes.
    pub fn iter(&self) -> Iter<'_, String, Node>
        ensures rest { entry_fields result ≡ members_fields self.now }
        ensures ordered { IsStrictlySortedBy string_cmp (keys_of result) }
    {
        self.map.iter()
    }

    #[cycle(copy)]
    pub fn copy(&self, alloc: Global) -> Result<Members, Memory>
        ensures { IfOk result (λ made. members_fields made ≡ members_fields self.now) }
    {
        let mut made = Members::new(alloc);
        for (name, node) in self.map.iter() {
            let name = name.clone()?;
            made.insert(name, node.copy(alloc)?)?;
        }
        Ok(made)
    }
}
