//! Files in memory: a form that never fails, and one with a script of the calls that fail.

ghost use Rattle.std.specs.Prelude.{◌≡◌, ◌≢◌, ◌⊎◌, [], ◌≤◌, ◌<◌, IfSome, IfNone, IfOk, OnOk, OnErr, Some, None, string_bytes};
ghost use Rattle.std.specs.Option.{option_copied};
ghost use Rattle.sg_outside.specs.Files.{CountsLoad, Loads};
ghost use Rattle.sg_outside.specs.MemFiles.{file_under, bytes_under};
ghost use Rattle.sg_outside.specs.Scripts.{LoadsByScript, fails_at, one_more};

use crate::bytes::Bytes;
use crate::files::{Files, LARGEST_FILE, Loaded, count_fault};
use crate::load_trail::LoadTrail;
use std::alloc::{AllocError, Global};

/// A file in memory.
#[derive(Drop)]
pub struct MemFile {
    pub name: String,
    pub bytes: Bytes,
}

/// The first file of this name.
fn find<'a>(files: &'a [MemFile], name: &str) -> Option<&'a Bytes>
    ensures { option_copied result ≡ file_under files.now name.now }
{
    for file in files {
        if file.name.as_str() == name {
            return Some(&file.bytes);
        }
    }
    None
}

/// Appends these bytes, if they are no more than a loaded file may have.
fn append(bytes: &[u8], into: &mut Bytes) -> Loaded
    ensures loaded { Loads (Some bytes.now) result into.old into.new }
    ensures fine { result ≢ Loaded.Failed }
{
    if bytes.len() > LARGEST_FILE {
        return Loaded::Longer;
    }
    match into.extend_from_slice(bytes) {
        Ok(()) => Loaded::Whole,
        Err(_) => Loaded::Memory,
    }
}

/// Files in memory that never fail: a name under which no file was put is an empty file.
#[derive(Drop)]
pub struct MemFiles {
    pub files: Vec<MemFile>,
    trail: LoadTrail,
}

impl MemFiles {
    /// No files. Allocates nothing.
    pub fn new(alloc: Global) -> MemFiles
        ensures files { result.files.items ≡ [] }
        ensures loads { ⟦<MemFiles as Files>⟧.loads result ≡ [] }
    {
        MemFiles {
            files: Vec::new(alloc),
            trail: LoadTrail::new(),
        }
    }
}

impl Files for MemFiles {
    ghost faults = { λ _. 0 };

    ghost recorded = { λ f. Some (λ name. Some (bytes_under f.files.items name)) };

    ghost loads = { λ f. f.trail };

    fn load(&mut self, name: &str, into: &mut Bytes) -> Loaded {
        let answer = match find(self.files.as_slice(), name) {
            Some(bytes) => append(bytes.as_slice(), into),
            None => append(&[], into),
        };
        self.trail.add(name, answer);
        answer
    }
}

/// Files in memory with a script: the k-th call fails where the k-th mark says so, and a call past the
/// script's end does not. A load of a name under which no file was put fails too.
#[derive(Drop)]
pub struct ScriptedFiles {
    pub files: Vec<MemFile>,
    pub fails: Vec<bool>,
    calls: usize,
    faults: u64,
    trail: LoadTrail,
}

impl ScriptedFiles {
    ghost use Rattle.sg_outside.specs.Scripts.{loads_of};

    /// These files, of which no call was made yet. Allocates nothing.
    pub fn new(files: Vec<MemFile>, fails: Vec<bool>) -> ScriptedFiles
        ensures files { result.files.items ≡ files.items }
        ensures fails { result.fails.items ≡ fails.items }
        ensures calls { loads_of result ≡ 0 }
        ensures faults { ⟦<ScriptedFiles as Files>⟧.faults result ≡ 0 }
        ensures loads { ⟦<ScriptedFiles as Files>⟧.loads result ≡ [] }
    {
        ScriptedFiles {
            files,
            fails,
            calls: 0,
            faults: 0,
            trail: LoadTrail::new(),
        }
    }

    /// The faults so far; the count stands still at its type's end.
    pub fn faults(&self) -> u64
        ensures { result ≡ ⟦<ScriptedFiles as Files>⟧.faults self.now }
    {
        self.faults
    }
}

/// Whether the script says that this call fails; counts the call.
pub(crate) fn next_fails(fails: &[bool], calls: &mut usize) -> bool
    ensures fails { result ≡ fails_at fails.now calls.old }
    ensures counted { calls.new ≡ one_more calls.old }
{
    let call = *calls;
    *calls = call.saturating_add(1);
    match fails.get(call) {
        Some(fails) => *fails,
        None => false,
    }
}

/// Loads a file, or fails where that is to be or where there is no such file.
fn load_or_fail(
    files: &[MemFile],
    name: &str,
    fails: bool,
    into: &mut Bytes,
    faults: &mut u64,
) -> Loaded
    ensures counted { CountsLoad faults.old result faults.new }
    ensures loaded { Loads (file_under files.now name.now) result into.old into.new }
    ensures script { LoadsByScript fails (file_under files.now name.now) result }
{
    if fails {
        return count_fault(faults);
    }
    match find(files, name) {
        Some(bytes) => append(bytes.as_slice(), into),
        None => count_fault(faults),
    }
}

impl Files for ScriptedFiles {
    ghost use Rattle.std.specs.Prelude.{◌++◌, ◌∷◌};
    ghost use Rattle.sg_outside.specs.Scripts.{loads_of};

    ghost faults = { λ f. f.faults };

    ghost recorded = { λ f. Some (λ name. file_under f.files.items name) };

    ghost loads = { λ f. f.trail };

    fn load(&mut self, name: &str, into: &mut Bytes) -> Loaded
        ensures counted { CountsLoad self.old.faults result self.new.faults }
        ensures kept { (self.new.files ≡ self.old.files) × (self.new.fails ≡ self.old.fails) }
        ensures loaded { Loads (file_under self.old.files.items name.now) result into.old into.new }
        ensures script { LoadsByScript (fails_at self.old.fails.items (loads_of self.old))
            (file_under self.old.files.items name.now) result }
        ensures calls { loads_of self.new ≡ one_more (loads_of self.old) }
        ensures loads { self.new.trail
            ≡ self.old.trail ++ record { name = name.now; answer = result } ∷ [] }
    {
        let fails = next_fails(self.fails.as_slice(), &mut self.calls);
        let answer = load_or_fail(self.files.as_slice(), name, fails, into, &mut self.faults);
        self.trail.add(name, answer);
        answer
    }
}
