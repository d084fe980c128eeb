//! Files that are loaded whole.

ghost use Rattle.std.specs.Prelude.{◌≡◌, ◌++◌, ◌∷◌, [], ℕ, List, IsErrAnd};
ghost use Rattle.command_line.specs.Loads.{IsLoadAnswer, NeedsFile};
ghost use Rattle.command_line.specs.Run.{EndsAbsent, EndsLoaded, HasFile, HasNoFile, IsLoaded};

use crate::status::Status;
use sg_history::Why;
use sg_outside::{Bytes, Files, Loaded};
use std::alloc::Global;

/// The bytes of the file that has this number among the command's files, or how the run ends without them.
pub fn load<F: Files>(alloc: Global, files: &mut F, path: &str, file: u64) -> Result<Bytes, Status>
    ensures recorded { (bytes : List ℕ) → HasFile (F.recorded files.old) path.now bytes
        → IsLoaded file bytes result }
    ensures absent { HasNoFile (F.recorded files.old) path.now → IsErrAnd result EndsAbsent }
    ensures loads { (answer : Loaded) × (F.loads files.new
        ≡ F.loads files.old ++ record { name = path.now; answer = answer } ∷ [])
        × IsLoadAnswer file answer result
        × NeedsFile (F.recorded files.old) path.now answer }
    ensures loaded { EndsLoaded result (F.faults files.old) (F.faults files.new) }
    ensures kept { F.recorded files.new ≡ F.recorded files.old }
{
    let mut bytes = Bytes::new(alloc);
    match files.load(path, &mut bytes) {
        Loaded::Whole => Ok(bytes),
        Loaded::Longer => Err(Status::BadInput {
            file,
            place: 0,
            why: Why::Long,
        }),
        Loaded::Failed => Err(Status::ReadFault),
        Loaded::Memory => Err(Status::Memory),
    }
}
