//! What stands outside the gateway, as traits: files, where output goes, and the wire to a device. Each
//! has a count of faults, and records what it holds or took where it can.
#![tactic(auto)]

mod bytes;
mod files;
mod load_trail;
mod mem_files;
pub mod mem_wire;
mod real;
mod scripted_sink;
mod scripted_wire;
mod seen_name;
pub mod sink;
mod streams;
pub mod wire;

pub use bytes::Bytes;
pub use files::{Files, Loaded};
pub use mem_files::{MemFile, MemFiles, ScriptedFiles};
pub use mem_wire::{Input, MemWire};
pub use real::{RealFiles, StdoutSink};
pub use scripted_sink::ScriptedSink;
pub use scripted_wire::ScriptedWire;
pub use sink::{Gave, MemSink, Sink};
pub use streams::{read_whole, write_whole};
pub use wire::{Got, Wire};

/// Memory ran out.
pub type Memory = std::alloc::AllocError;
