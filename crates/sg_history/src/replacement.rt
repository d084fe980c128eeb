//! Replacements of the sync function, as entries record them.

use crate::entries::Marks;
use crate::sync_text::SyncText;

/// A sync function in place of the one before it.
#[derive(Clone, Copy)]
pub struct Replacement<'a> {
    pub text: &'a SyncText,
    /// What it makes of each revision that is a leaf, by rising documents and revisions.
    pub marks: &'a Marks,
}
