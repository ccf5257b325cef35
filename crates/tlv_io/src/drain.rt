//! Where octets are written to.

ghost use Rattle.std.specs.Prelude.{◌<◌, length};
ghost use Rattle.tlv_io.specs.Device.{DrainState, WritesOnce};

/// A write failed.
#[derive(Clone, Copy, Debug, PartialEq, Eq)]
pub struct WriteFault;

/// A destination for octets, written in order. The count of failed writes stops at 2^64 - 1.
pub trait Drain {
    /// What contracts see of it: its octets and its failures.
    ghost state: { Self → DrainState };

    /// Takes a prefix of `from`, which holds at least one octet. Returns the number of octets taken: one or more.
    ///
    /// # Errors
    ///
    /// `WriteFault` if the write failed. It then took nothing.
    fn write(&mut self, from: &[u8]) -> Result<usize, WriteFault>
        requires { 0 < length from.now }
        ensures { WritesOnce (state self.old) (state self.new) result from.now };
}
