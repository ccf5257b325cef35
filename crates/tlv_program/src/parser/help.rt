//! The texts of help.

/// The help texts of a command.
#[derive(Clone, Copy)]
pub(super) struct Help<'a> {
    /// The text in the list of commands.
    pub about: &'a str,
    /// The text above the command's own options.
    pub more: &'a str,
    /// The text below them.
    pub after: &'a str,
}

pub(super) const FILE: &str =
    "The file to read [default: standard input]; \"-\" is a file of that name";

pub(super) const DUMP_RULES: &str = "\
Show what violates the rules of BER, DER or CER: ber, der or cer [default: ber]";

pub(super) const CHECK_RULES: &str = "\
The rules to check: ber, der or cer; those of DER and CER include those of BER
[default: der]";

pub(super) const LIMIT: &str = "\
Write at most N rows of each value, and \"...\" for the rest: 0 to 4294967295
[default: all rows]";

pub(super) const PURE: &str = "\
Leave out the first columns, those of offsets and lengths, and the lines of findings,
so that dumps can be compared";

pub(super) const NAMES: &str = "\
A file of names for object identifiers: lines such as \"2.5.4.3 commonName\", and
lines of comment that begin with \"#\"";

pub(super) const INSIDE: &str = "\
Read the contents of the OCTET STRINGs and BIT STRINGs at these offsets as encodings:
1 to 16 rising offsets with commas between them, each from 0 to 1099511627776";

pub(super) const PADDING: &str = "\
Allow octets 00 before, between and after the encodings, as files of records have
them";

pub(super) const OFFSET: &str = "\
Where the element's first octet stands, in octets from the start of the input: 0 to
1099511627776";

pub(super) const CONTENTS: &str = "\
Write the element's contents alone, without its header and its end-of-contents octets";

pub(super) const PROGRAM: Help<'static> = Help {
    about: "Show BER, CER and DER encodings without their ASN.1 module",
    more: "\
Shows BER, CER and DER encodings (ITU-T X.690) without their ASN.1 module, as files of
certificates, directory entries and telephony records have them. The input is read once,
from its start, and may be a pipe. It is taken as it is: for PEM, base64 and hexadecimal
there is tlvdump-show.",
    after: "\
Each command has help of its own, as \"tlvdump dump --help\".

Examples:
  tlvdump dump certificate.der
  base64 -d < certificate.b64 | tlvdump dump --limit 1
  tlvdump extract --offset 4 certificate.der | tlvdump dump

Exit status:
  0  the input is one or more whole encodings, nothing else, and nothing is found
  1  findings, no element at the offset of extract (E4), no string at an offset of --inside (E7)
  2  an octet is refused, or the input ends too early (F01 to F12)
  3  a read or a write failed (E1, E2), more than 2^40 octets (E3), FILE does not open (E5)
  4  the command line (U1, U2) or the file of names (N1 to N5) is refused
  5  memory was refused (U3, N6)
The message goes to standard error: one line, or several if the command line is refused.",
};

pub(super) const DUMP: Help<'static> = Help {
    about: "Write each element on a line of its own: offset, length, tag and value",
    more: "\
Writes each element on a line of its own, as far as the input is an encoding: the offset of
its first octet, the length of its contents (or \"indef\"), its tag and its value. What an
element holds is indented below it. What violates the rules stands on lines of its own. The
input is taken as it is: for PEM, base64 and hexadecimal there is tlvdump-show.",
    after: "\
Examples:
  tlvdump dump certificate.der
  tlvdump dump --names names.txt --limit 1 < certificate.der
  tlvdump dump --rules der --inside 445,475 certificate.der

Exit status:
  0  the input is one or more whole encodings, nothing else, and nothing is found
  1  findings, or no OCTET STRING or BIT STRING at an offset of --inside (E7)
  2  an octet is refused, or the input ends too early (F01 to F12)
  3  a read or a write failed (E1, E2), more than 2^40 octets (E3), FILE does not open (E5)
  4  the command line (U1, U2) or the file of names (N1 to N5) is refused
  5  memory was refused (U3, N6)
The message goes to standard error: one line, or several if the command line is refused.",
};

pub(super) const CHECK: Help<'static> = Help {
    about: "List what violates the rules of BER, DER or CER",
    more: "\
Lists what violates the rules, a finding on each line: the offset of the element, the code of
the finding, and what is wrong. If nothing is found, nothing is written. Not looked for:
default values, the order of SET and SET OF, the contents of REAL, the parts of EXTERNAL,
EMBEDDED PDV and CHARACTER STRING, and OID-IRI, RELATIVE-OID-IRI, TIME, DATE, TIME-OF-DAY,
DATE-TIME and DURATION.",
    after: "\
Examples:
  tlvdump check certificate.der
  tlvdump check --rules cer --padding records.ber

Exit status:
  0  the input is one or more whole encodings, nothing else, and nothing is found
  1  findings, or no OCTET STRING or BIT STRING at an offset of --inside (E7)
  2  an octet is refused, or the input ends too early (F01 to F12)
  3  a read or a write failed (E1, E2), more than 2^40 octets (E3), FILE does not open (E5)
  4  the command line is refused (U1, U2)
  5  memory was refused (U3)
The message goes to standard error: one line, or several if the command line is refused.",
};

pub(super) const EXTRACT: Help<'static> = Help {
    about: "Write the octets of one element, or of its contents",
    more: "\
Writes the octets of the element at an offset as they stand, or those of its contents.
Nothing more is read once the element is whole.",
    after: "\
Examples:
  tlvdump extract --offset 4 certificate.der > tbs.der
  tlvdump extract --offset 445 --contents certificate.der | tlvdump dump

Exit status:
  0  the element is whole
  1  no element has its first octet at the offset (E4)
  2  an octet is refused, or the input ends too early (F01 to F12)
  3  a read or a write failed (E1, E2), more than 2^40 octets (E3), FILE does not open (E5)
  4  the command line is refused (U1, U2)
  5  memory was refused (U3)
The message goes to standard error: one line, or several if the command line is refused.",
};

pub(super) const INDEF: Help<'static> = Help {
    about: "Write the same encodings with the indefinite form of each constructed length",
    more: "\
Writes the same encodings with the indefinite form of length in each constructed element:
its identifier octets, 80, its contents, 00 00. Primitive elements are written as they
stand.",
    after: "\
Example:
  tlvdump indef certificate.der > certificate.ber

Exit status:
  0  the input is one or more whole encodings, and nothing else
  2  an octet is refused, or the input ends too early (F01 to F12)
  3  a read or a write failed (E1, E2), more than 2^40 octets (E3), FILE does not open (E5)
  4  the command line is refused (U1)
  5  memory was refused (U3)
The message goes to standard error: one line, or several if the command line is refused.",
};
