//! Devices that octets come from and go to, and the octets on their way: octets are read in pieces, gathered by an
//! [`Out`], and written.
#![tactic(auto)]

mod drain;
mod held_octets;
mod memory;
mod out;
mod source;
mod stream;

pub use drain::{Drain, WriteFault};
pub use held_octets::HeldOctets;
pub use memory::{MemDrain, MemSource};
pub use out::{Out, send};
pub use source::{ReadFault, Source};
pub use stream::{ReadSource, WriteDrain};
