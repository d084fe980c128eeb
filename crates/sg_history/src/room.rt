//! What rooms are made for.

use sg_names::DocId;

/// What a room was made for: a document, or an entry that is no write; and how many bytes the body may have.
#[derive(Drop)]
pub struct RoomFor {
    pub doc: Option<DocId>,
    pub bytes: u64,
}
