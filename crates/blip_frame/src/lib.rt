//! BLIP frames and message payloads, read and written exactly.
#![tactic(auto)]

pub mod crc;
pub mod frame;
pub mod laws;
pub mod payload;
pub mod props;
mod tables;
pub mod varint;

pub use crc::Crc;
pub use frame::{Frame, FrameFault, Kind, read_frame, write_frame, write_frame_with};
pub use payload::{Payload, PayloadFault, read_payload, take_payload, write_front, write_payload};
pub use props::{Prop, Props};
pub use varint::{Varint, VarintFault, read_varint, write_varint};
