//! The lines of a script.

use crate::command::Command;
use sg_history::{DocId, RevId};
use sg_names::List;
use sg_outside::Bytes;

/// One line of a script.
#[derive(Drop)]
pub enum AdminLine {
    Command(Command),
    /// A revision of a document, which the administrator writes.
    Doc {
        doc: DocId,
        /// The revision that it follows; none for the first one of a document.
        parent: Option<RevId>,
        deleted: bool,
        body: Bytes,
    },
}

/// The lines of a script, in order.
pub type AdminLines = List<AdminLine>;
