//! What holds of the type of every resolved program. The call does nothing.

use crate::program::Resolved;

/// A value that threads may share, and that one may hand on to another.
fn shared<T: Send + Sync>(_value: &T) {}

/// All threads may run one program.
pub fn crosses_threads(program: &Resolved) {
    shared(program);
}
