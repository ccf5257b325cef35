//! Texts in printable ASCII alone.
ghost use Rattle.std.specs.Prelude.{◌≡◌, map};
ghost use Rattle.std.specs.Option.{option_map};
ghost use Rattle.std.specs.Fmt.{HasWritten, IsPlainFormatter};
ghost use Rattle.tlv_program.specs.Texts.{printed_octet};

use std::fmt;

/// A text with a question mark in place of each octet that is neither printable ASCII nor a line feed. The texts of `clap`
/// repeat words of the command line, and a terminal may take their octets for commands.
#[derive(Drop)]
pub(crate) struct Printable<'a, T> {
    pub text: &'a T,
}

impl<T: fmt::Display> fmt::Display for Printable<'_, T> {
    ghost output = { λ p. option_map (map printed_octet) (T.output p.text.now) };

    fn fmt<W: fmt::Write>(&self, f: &mut fmt::Formatter<W>) -> fmt::Result {
        fmt::Write::write(&mut Replacing { to: f }, self.text)
    }
}

/// Writes a text to a formatter with the octets replaced.
#[derive(Drop)]
struct Replacing<'a, W> {
    to: &'a mut fmt::Formatter<W>,
}

impl<W: fmt::Write> fmt::Write for Replacing<'_, W> {
    ghost write_str_gives = { λ s bs t. (t.to.ghost_name ≡ s.to.ghost_name)
        × (IsPlainFormatter s.to.now → HasWritten W.write_str_gives s.to.now (map printed_octet bs) t.to.now) };

    fn write_str(&mut self, text: &str) -> fmt::Result {
        for octet in text.as_bytes() {
            self.to.write_char(shown(*octet))?;
        }
        Ok(())
    }
}

/// The octet as a character, or a question mark.
fn shown(octet: u8) -> char
    ensures { result ≡ printed_octet octet }
{
    match octet {
        b'\n' | b' '..=b'~' => char::from(octet),
        _ => '?',
    }
}
