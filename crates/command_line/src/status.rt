//! How a command ends.

use sg_history::Why;

/// How a command ends.
#[derive(Debug, Drop)]
pub enum Status {
    Ok,
    /// The words are in no command's form.
    BadWords,
    /// A file is outside its grammar: its number among the command's files, the line of the fault, and why.
    BadInput { file: u64, place: u64, why: Why },
    /// A file could not be read.
    ReadFault,
    /// The output could not be written.
    WriteFault,
    /// The door could not be opened, or failed.
    DoorFault,
    /// Memory ran out.
    Memory,
}
