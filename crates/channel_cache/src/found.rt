//! What is found in channels.

use sg_history::DocId;

/// A document with the sequence of its last write.
#[derive(Drop)]
pub struct DocSeq {
    pub doc: DocId,
    pub seq: u64,
}

/// A list of documents with sequences.
pub type DocSeqs = sg_names::List<DocSeq>;

/// The documents of a channel, and whether they were looked up in the whole log.
#[derive(Drop)]
pub struct Listed {
    pub documents: DocSeqs,
    pub refilled: bool,
}

/// The sequences of documents in channels, and how many of the channels were filled.
#[derive(Drop)]
pub struct Found {
    pub sequences: Vec<u64>,
    pub refills: u64,
}
