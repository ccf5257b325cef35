//! A list of offsets, as the option `--inside` takes it.
ghost use Rattle.std.specs.Prelude.{◌≡◌};
ghost use Rattle.tlv_io.specs.Out.{Puts, Sends};
ghost use Rattle.tlv_view_program.specs.Offsets.{listed_offset, offsets_line};

use arrayvec::ArrayVec;
use itoa::Buffer;
use tlv_walk::{Drain, Out, WriteFault};

/// Writes the offsets in decimal with commas between them and a line feed after them, or nothing if there are none.
///
/// # Errors
///
/// `WriteFault` if a write failed. What was written is then a prefix of the line.
#[tactic(auto, using(tlv_io::proofs::Sends::sends))]
pub fn write_offsets<D: Drain>(offsets: &[u64], drain: &mut D) -> Result<(), WriteFault>
    ensures { Sends (D.state drain.old) (D.state drain.new) (offsets_line offsets.now) result }
{
    let mut out = Out::new(drain);
    put_offsets(offsets, &mut out)?;
    out.flush()?;
    Ok(())
}

/// Puts the line of these offsets.
fn put_offsets<D: Drain>(offsets: &[u64], out: &mut Out<'_, D>) -> Result<(), WriteFault>
    ensures { Puts D.state out.old out.new (offsets_line offsets.now) result }
{
    for i in 0..offsets.len() {
        let text = offset_text(offsets[i], offsets[i + 1..].is_empty());
        out.put(text.as_slice())?;
    }
    Ok(())
}

/// An offset in decimal, and what follows it: a comma, or a line feed after the last.
fn offset_text(offset: u64, is_last: bool) -> ArrayVec<u8, 41>
    ensures { result.items ≡ listed_offset offset is_last }
{
    let mut text = ArrayVec::new();
    let mut digits = Buffer::new();
    let _ = text.try_extend_from_slice(digits.format(offset).as_bytes());
    let _ = text.try_push(if is_last { b'\n' } else { b',' });
    text
}
