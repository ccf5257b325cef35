//! How the message of a report is written.
ghost use Rattle.std.specs.Prelude.{◌≡◌, ◌≤◌, length};
ghost use Rattle.tlv_io.specs.Out.{Sends};
ghost use Rattle.tlv_run.specs.Report.{WritesMessage, message_line};

use crate::report::Report;
use arrayvec::ArrayVec;
use tlv_walk::{Drain, Out, WriteFault};

/// Writes the message, if any, with a line feed after it, and returns the exit status. A failed write does not change
/// the status.
pub fn write_message<D: Drain>(report: &Report, drain: &mut D) -> u8
    ensures status { result ≡ report.now.status }
    ensures writes { WritesMessage (message_line report.now.message.items) (D.state drain.old)
        (D.state drain.new) }
{
    let line = message_line(report.message.as_slice());
    let _ = send(line.as_slice(), drain);
    report.status
}

/// The message with a line feed after it; nothing if there is no message.
fn message_line(message: &[u8]) -> ArrayVec<u8, 129>
    requires { length message.now ≤ 128 }
    ensures { result.items ≡ message_line message.now }
{
    let mut line = ArrayVec::new();
    if !message.is_empty() {
        let _ = line.try_extend_from_slice(message);
        let _ = line.try_push(b'\n');
    }
    line
}

/// Hands the octets to the drain.
#[tactic(auto, using(tlv_io::proofs::Sends::sends))]
fn send<D: Drain>(octets: &[u8], drain: &mut D) -> Result<(), WriteFault>
    ensures { Sends (D.state drain.old) (D.state drain.new) octets.now result }
{
    let mut out = Out::new(drain);
    out.put(octets)?;
    out.flush()?;
    Ok(())
}
