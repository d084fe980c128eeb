//! One happy path of each call.

use sg_outside::{
    Bytes, Files, Gave, Got, Input, Loaded, MemFile, MemFiles, MemSink, MemWire, ScriptedFiles,
    ScriptedSink, ScriptedWire, Sink, Wire,
};
use std::alloc::{AllocError, Global};
use std::test::Fail;

/// The file `a`.
fn one_file(alloc: Global) -> Result<Vec<MemFile>, AllocError> {
    let name = String::from_str(alloc, "a")?;
    let bytes = Bytes::from_slice(alloc, b"text")?;
    Ok(vec![in alloc; MemFile { name, bytes }]?)
}

/// Whether a load of a file answers so, and `> ` is so then.
fn loads<F: Files>(
    alloc: Global,
    files: &mut F,
    name: &str,
    want: Loaded,
    bytes: &[u8],
) -> Result<bool, AllocError> {
    let mut into = Bytes::from_slice(alloc, b"> ")?;
    let loaded = files.load(name, &mut into);
    Ok(loaded == want && into.as_slice() == bytes)
}

fn loads_in_memory(alloc: Global) -> Result<bool, AllocError> {
    let mut files = MemFiles::new(alloc);
    files.files = one_file(alloc)?;
    loads(alloc, &mut files, "a", Loaded::Whole, b"> text")
}

fn load_fails_by_script(alloc: Global) -> Result<bool, AllocError> {
    let mut files = ScriptedFiles::new(one_file(alloc)?, vec![in alloc; true]?);
    let failed = loads(alloc, &mut files, "a", Loaded::Failed, b"> ")?;
    Ok(failed && files.faults() == 1)
}

fn gives_in_memory(alloc: Global) -> bool {
    let mut sink = MemSink::new(alloc);
    sink.give(b"> text") == Gave::Done && sink.bytes.as_slice() == b"> text".as_slice()
}

fn give_fails_by_script(alloc: Global) -> Result<bool, AllocError> {
    let mut sink = ScriptedSink::new(alloc, vec![in alloc; Some(2)]?);
    let gave = sink.give(b"two");
    Ok(gave == Gave::Failed && sink.faults() == 1 && sink.bytes.as_slice() == b"tw".as_slice())
}

/// What was received, as a word: a frame's bytes, or which other result it is.
fn word(got: &Got) -> &[u8] {
    match got {
        Got::Frame(frame) => frame.as_slice(),
        Got::Text => b"text",
        Got::Idle => b"idle",
        Got::End => b"end",
        Got::Failed => b"failed",
        Got::Memory => b"memory",
    }
}

/// Whether a wire gives this, and takes a frame.
fn carries<W: Wire>(wire: &mut W, received: &[u8]) -> bool {
    let got = wire.recv();
    word(&got) == received && wire.send(b"a frame") == Gave::Done
}

fn carries_in_memory(alloc: Global) -> Result<bool, AllocError> {
    let frame = Bytes::from_slice(alloc, b"one")?;
    let mut wire = MemWire::new(alloc, vec![in alloc; Input::Frame(frame)]?);
    Ok(carries(&mut wire, b"one"))
}

fn carries_by_script(alloc: Global) -> Result<bool, AllocError> {
    let script = vec![in alloc; Got::Failed]?;
    let mut wire = ScriptedWire::new(alloc, script, vec![in alloc; false]?);
    Ok(carries(&mut wire, b"failed") && wire.faults() == 1)
}

/// Whether so many bytes are those of their copy once they are shared, and stay so when the copy grows.
fn shares(alloc: Global, len: usize) -> Result<bool, AllocError> {
    let mut bytes = Bytes::from_vec(vec![in alloc; b'a'; len]?);
    bytes.share()?;
    let mut copy = bytes.copy(alloc)?;
    let same = copy.equals(&bytes);
    copy.push(b'b')?;
    Ok(same && bytes.len() == len && copy.as_slice().last() == Some(&b'b'))
}

#[test]
fn bytes_that_copies_share(rt: HostRuntime) -> Result<(), Fail> {
    for len in [0usize, 1, 1_023, 1_024, 20_971_520] {
        assert!(rt; shares(rt.alloc(), len)?);
    }
    Ok(())
}

#[test]
fn files_sinks_and_wires_in_memory(rt: HostRuntime) -> Result<(), Fail> {
    let alloc = rt.alloc();
    assert!(rt; loads_in_memory(alloc)?);
    assert!(rt; load_fails_by_script(alloc)?);
    assert!(rt; gives_in_memory(alloc));
    assert!(rt; give_fails_by_script(alloc)?);
    assert!(rt; carries_in_memory(alloc)?);
    assert!(rt; carries_by_script(alloc)?);
    Ok(())
}
