ghost use Rattle.std.specs.Prelude.{◌≡◌, IfOk, OnOk};
ghost use Rattle.json_doc.specs.Tree.{put_field};
ghost use Rattle.json_doc.specs.System as system;
ghost use Rattle.json_doc.specs.View.{node_tree, members_fields};

use crate::Memory;
use crate::doc::Doc;
use crate::node::{Members, Node};
use crate::text::DocText;
use std::alloc::Global;

/// The document with its identifier as the member `_id` and, where the revision is deleted, with a
/// true `_deleted`. A member that had such a name is replaced. No text is copied but `id`.
pub fn with_system(alloc: Global, doc: Doc, id: &str, deleted: bool) -> Result<Doc, Memory>
    ensures { IfOk result
        (λ made. node_tree made ≡ system.with_system id.now deleted (node_tree doc)) }
{
    let mut members = doc.into_members();
    put_system(alloc, &mut members, id, deleted)?;
    Ok(Doc::from(members))
}

fn put_system(alloc: Global, members: &mut Members, id: &str, deleted: bool) -> Result<(), Memory>
    ensures { OnOk result (members_fields members.new
        ≡ system.system_fields id.now deleted (members_fields members.old)) }
{
    let id = DocText::from_str(alloc, id)?;
    put(alloc, members, "_id", Node::Text(id))?;
    if deleted {
        put(alloc, members, "_deleted", Node::Bool(true))?;
    }
    Ok(())
}

fn put(alloc: Global, members: &mut Members, name: &str, node: Node) -> Result<(), Memory>
    ensures { OnOk result (members_fields members.new
        ≡ put_field name.now (node_tree node) (members_fields members.old)) }
{
    let name = String::from_str(alloc, name)?;
    members.insert(name, node)
}
