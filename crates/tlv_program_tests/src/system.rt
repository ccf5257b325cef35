//! A system whose files are in memory.
ghost use Rattle.tlv_program.specs.System.{unknown_system};

use arrayvec::ArrayVec;
use tlv_program::{OpenFault, System};
use tlv_walk::MemSource;

/// The files. First encodings and names files: an INTEGER, an OBJECT IDENTIFIER, a NULL, a string that holds a NULL, a
/// string that is broken, an INTEGER with a wrong length, octets that are text, names, and names that are refused. Then
/// texts: a NULL and an INTEGER in PEM, an encrypted INTEGER, an INTEGER refused in line 2, an INTEGER in hexadecimal, and
/// a text of unknown form.
static FILES: [(&str, &[u8]); 14] = [
    ("integer", b"\x02\x01\x05"),
    ("object", b"\x06\x02\x2a\x03"),
    ("null", b"\x05\x00"),
    ("string", b"\x04\x02\x05\x00"),
    (
        "broken",
        b"\x30\x0a\x06\x03\x55\x1d\x0f\x04\x03\x03\x02\x05",
    ),
    ("damaged", b"\x30\x03\x02\x02\x01"),
    ("text", b"\x80\x03abc"),
    ("names", b"1.2.3 word\n"),
    ("bad names", b"1.40 word\n"),
    (
        "pem",
        b"-----BEGIN A-----\nBQA=\n-----END A-----\n-----BEGIN B C-----\nAgEF\n-----END B C-----\n",
    ),
    (
        "encrypted",
        b"-----BEGIN A-----\nProc-Type: 4,ENCRYPTED\n\nAgEF\n-----END A-----\n",
    ),
    ("wrong", b"-----BEGIN A-----\nAgEF!\n-----END A-----\n"),
    ("hex", b"02:01:05\n"),
    ("letter", b"Dear Sir,"),
];

/// A system whose files are in memory. It records what it is asked for: the first octet of the name of each file that
/// is opened, `;` for a file that is closed, and `!` for a text of `clap` that is printed.
#[derive(Drop)]
pub(crate) struct MemSystem {
    pub can_print: bool,
    pub asked: ArrayVec<u8, 16>,
}

impl System for MemSystem {
    type File = MemSource<'static>;

    ghost allows = { unknown_system };

    fn open(&mut self, name: &str) -> Result<MemSource<'static>, OpenFault> {
        let first = name.as_bytes().first().copied().unwrap_or(b'?');
        let _ = self.asked.try_push(first);
        for (file, octets) in FILES {
            if file == name {
                return Ok(MemSource::new(octets, &[], None));
            }
        }
        Err(OpenFault::Missing)
    }

    fn close(&mut self, _file: MemSource<'static>) {
        let _ = self.asked.try_push(b';');
    }

    fn print(&mut self, _error: &clap::Error) -> bool {
        let _ = self.asked.try_push(b'!');
        self.can_print
    }
}
