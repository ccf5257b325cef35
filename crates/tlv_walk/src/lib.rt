//! A walk over BER, CER and DER encodings (ITU-T X.690): in whatever pieces the octets come, the walk yields what a
//! recursive grammar of identifier, length and contents octets gives.
#![tactic(auto)]

mod cursor;
mod drive_call;
mod ending;
mod event;
mod follow;
mod frames;
mod framing;
pub mod laws;
mod one_piece;
mod one_turn;
mod run;
mod stack;
mod walker;

pub use drive_call::{drive, drive_up_to};
pub use ending::Ending;
pub use event::{Event, Step};
pub use follow::{Follow, Go};
pub use frames::Frames;
pub use framing::{Framing, Inside};
pub use one_turn::turn;
pub use run::{DeviceFault, INPUT_LIMIT, Run, Turn};
pub use tlv_io::{
    Drain, HeldOctets, MemDrain, MemSource, Out, ReadFault, ReadSource, Source, WriteDrain,
    WriteFault, send,
};
pub use walker::Walker;
