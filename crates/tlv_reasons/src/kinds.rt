//! Other kinds of file, by the octets with which they begin.
ghost use Rattle.std.specs.Prelude.{◌≡◌, ◌≤◌, IfSome, length};
ghost use Rattle.std.specs.List.{prefix_len};
ghost use Rattle.tlv_reasons.specs.FileKinds.{begins_capture, begins_chunk, begins_utf16, digit_of, file_kind};
ghost use Rattle.tlv_reasons.specs.FileKinds.{hex_number, is_hex_digit};

use crate::facts_call::octets_from;

/// A kind of file that is no encoding by X.690.
#[derive(Clone, Copy, PartialEq, Eq, Debug)]
pub enum FileKind {
    /// ZIP.
    Zip,
    /// gzip.
    Gzip,
    /// bzip2.
    Bzip2,
    /// PDF.
    Pdf,
    /// XML or HTML.
    Markup,
    /// A key of OpenSSH.
    OpenSsh,
    /// Text in UTF-16.
    Utf16,
    /// A capture of packets, in the form of pcap or pcapng.
    Capture,
    /// A key store of Java.
    KeyStore,
    /// The header of an answer of HTTP, and what follows it.
    Http,
    /// A text with the byte order mark of UTF-8.
    ByteOrderMark,
    /// The body of an answer of HTTP in chunks, with their sizes.
    Chunks,
}

/// The other kind of file that begins as these octets do, if there is one.
pub fn file_kind(octets: &[u8]) -> Option<FileKind>
    ensures { result ≡ file_kind octets.now }
{
    if octets.starts_with(b"PK\x03\x04") {
        Some(FileKind::Zip)
    } else if octets.starts_with(b"\x1f\x8b") {
        Some(FileKind::Gzip)
    } else if octets.starts_with(b"BZh") {
        Some(FileKind::Bzip2)
    } else if octets.starts_with(b"%PDF") {
        Some(FileKind::Pdf)
    } else if octets.starts_with(b"<") {
        Some(FileKind::Markup)
    } else if octets.starts_with(b"openssh-key") {
        Some(FileKind::OpenSsh)
    } else if begins_utf16(octets) {
        Some(FileKind::Utf16)
    } else if begins_capture(octets) {
        Some(FileKind::Capture)
    } else if octets.starts_with(b"\xfe\xed\xfe\xed") {
        Some(FileKind::KeyStore)
    } else if octets.starts_with(b"HTTP/") {
        Some(FileKind::Http)
    } else if octets.starts_with(b"\xef\xbb\xbf") {
        Some(FileKind::ByteOrderMark)
    } else if begins_chunk(octets) {
        Some(FileKind::Chunks)
    } else {
        None
    }
}

/// Whether the octets begin with a byte order mark of UTF-16.
fn begins_utf16(octets: &[u8]) -> bool
    ensures { result ≡ begins_utf16 octets.now }
{
    octets.starts_with(b"\xff\xfe") || octets.starts_with(b"\xfe\xff")
}

/// Whether the octets begin as a capture of packets does: pcap, with microseconds or nanoseconds, or pcapng.
fn begins_capture(octets: &[u8]) -> bool
    ensures { result ≡ begins_capture octets.now }
{
    octets.starts_with(b"\xd4\xc3\xb2\xa1")
        || octets.starts_with(b"\x4d\x3c\xb2\xa1")
        || octets.starts_with(b"\x0a\x0d\x0d\x0a")
}

/// The most digits of the size of a chunk.
const SIZE_DIGITS: usize = 8;

/// Whether the octets begin with a chunk of HTTP: its size in hexadecimal digits, a line end, so many octets, and a line end.
fn begins_chunk(octets: &[u8]) -> bool
    ensures { result ≡ begins_chunk octets.now }
{
    let count = hex_digits(octets);
    if count == 0 || count > SIZE_DIGITS {
        return false;
    }
    let (digits, rest) = octets.split_at(count);
    let end = hex_number(digits) + 2;
    rest.starts_with(b"\r\n") && octets_from(rest, end).starts_with(b"\r\n")
}

/// The number of hexadecimal digits with which the octets begin.
fn hex_digits(octets: &[u8]) -> usize
    ensures value { result ≡ prefix_len is_hex_digit octets.now }
    ensures within { result ≤ length octets.now }
{
    for (index, octet) in octets.iter().enumerate() {
        if digit_of(*octet).is_none() {
            return index;
        }
    }
    octets.len()
}

/// The number that these hexadecimal digits state.
fn hex_number(digits: &[u8]) -> u64
    requires { length digits.now ≤ 8 }
    ensures number { result ≡ hex_number 0 digits.now }
    ensures small { result ≤ 0xffff_ffff }
{
    let mut number: u64 = 0;
    for octet in digits {
        number = number * 16 + u64::from(digit_of(*octet).unwrap_or(0));
    }
    number
}

/// The value of a hexadecimal digit.
fn digit_of(octet: u8) -> Option<u8>
    ensures value { result ≡ digit_of octet }
    ensures small { IfSome result (λ digit. digit ≤ 15) }
{
    match octet {
        b'0'..=b'9' => Some(octet - b'0'),
        b'a'..=b'f' => Some(octet - b'a' + 10),
        b'A'..=b'F' => Some(octet - b'A' + 10),
        _ => None,
    }
}
