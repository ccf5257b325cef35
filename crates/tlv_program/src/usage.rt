//! Why there is no command to run, and what the program reports then.
ghost use Rattle.std.specs.Prelude.{◌≡◌, ◌++◌, ◌≤◌, codes, length};
ghost use Rattle.tlv_run.specs.Report.{report_value_of};
ghost use Rattle.tlv_program.specs.Usage.{unprinted_report, usage_report, not_utf8_report};

use arrayvec::ArrayVec;
use tlv_run::{Report, device_report};
use tlv_walk::DeviceFault;

/// Why there is no command to run.
#[derive(Debug, Drop)]
pub enum UsageFault {
    /// `clap` refuses the words, or they ask for help or for the version: the kind of the error says which. There is no
    /// code: the text is `clap`'s own.
    Parser(clap::Error),
    /// U2: this is the first option whose text is not valid. The name is as on the command line, with `--`.
    Value(&'static str),
    /// U3: memory was refused.
    Memory,
}

/// The report if there is no command to run. It contains nothing of `clap`'s own text.
pub fn usage_report(fault: &UsageFault) -> Report
    ensures { report_value_of result ≡ usage_report fault.now }
{
    match fault {
        UsageFault::Parser(error) => Report::without_message(if error.use_stderr() {
            4
        } else {
            0
        }),
        UsageFault::Value(option) => {
            let octets = option.as_bytes();
            let shown = &octets[..64.min(octets.len())];
            Report::with_message(4, range_message(shown).as_slice())
        }
        UsageFault::Memory => Report::with_message(5, b"U3 out of memory"),
    }
}

/// The report if help or the version was asked for and could not be written.
pub fn unprinted_report() -> Report
    ensures { report_value_of result ≡ unprinted_report }
{
    device_report(DeviceFault::WriteFailed)
}

/// The report if a word of the command line is not UTF-8.
pub fn not_utf8_report() -> Report
    ensures { report_value_of result ≡ not_utf8_report }
{
    Report::with_message(4, b"U1 an argument is not UTF-8")
}

/// The message of U2, for the option of this name.
fn range_message(option: &[u8]) -> ArrayVec<u8, 128>
    requires { length option.now ≤ 64 }
    ensures text { result.items ≡ codes "U2 value out of range: " ++ option.now }
    ensures short { length result.items ≤ 128 }
{
    let mut message = ArrayVec::new();
    let _ = message.try_extend_from_slice(b"U2 value out of range: ");
    let _ = message.try_extend_from_slice(option);
    message
}
