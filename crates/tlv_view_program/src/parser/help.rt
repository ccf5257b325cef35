//! The texts of help.

pub(super) const USAGE: &str = "\
tlvdump-show [OPTIONS] [FILE]...
       tlvdump-show --check [--as FORM] [--rules RULES] [--closed] [--padding] [FILE]...
       tlvdump-show --offset N [--contents] [--as FORM] [--padding] [FILE]
       tlvdump-show --offsets [--as FORM] [--padding] [FILE]
       tlvdump-show --raw [--as FORM] [FILE]...
       tlvdump-show --why [--as FORM] [--closed] [--padding] [FILE]...";

pub(super) const ABOUT: &str = "\
Show BER, CER and DER encodings, and those in strings, without their ASN.1 module";

pub(super) const MORE: &str = "\
Shows BER, CER and DER encodings (ITU-T X.690) without their ASN.1 module: each element on a
line of its own, as \"tlvdump dump\" writes it. OCTET STRINGs and BIT STRINGs that hold
encodings are opened, however deep in one another, and what they hold is shown below them.
Where a value is shown as pairs of digits, a text of printable ASCII stands beside them.

The encodings may be there as they are, or as a text: PEM, a hex dump with offsets,
hexadecimal, decimal numbers, base64, or base64 inside another text. What a text was taken
for is reported on standard error.

With --check only the findings are listed. --offset writes the octets of one element, --offsets
the offsets of the strings that are opened, and --raw the decoded octets. --why says why the
input does not parse. Without --why and --raw these reasons follow a fault, on standard error.";

pub(super) const AFTER: &str = "\
Examples:
  tlvdump-show cert.der
  tlvdump-show chain.pem
  tlvdump-show --check *.der
  tlvdump-show --offset 703 cert.der | tlvdump dump
  tlvdump-show --raw cert.pem | tlvdump check
  
Exit status, the highest of several files:
  0  the input is one or more whole encodings, nothing else, and nothing is found
  1  findings, a string that breaks, or no element at --offset (E4)
  2  an octet is refused, or the input ends too early (F01 to F12)
  3  a read or a write failed (E1, E2), more than 2^40 octets (E3), FILE does not open (E5)
  4  the command line (U1, U2, U4), the file of names (N1 to N5) or a text (X1 to X4) is refused
  5  memory was refused (U3, N6, E8)
Messages go to standard error. One that concerns a FILE has its name before it.";

pub(super) const FILE: &str =
    "The files to read, one after another [default: standard input]; \"-\" is standard input";

pub(super) const CHECK: &str =
    "List what violates the rules, and nothing else, also in the strings that are opened";

pub(super) const OFFSET: &str = "\
Write the octets of the element whose first octet stands here, in octets from the start
of the input: 0 to 1099511627776. It may be in a string that is opened";

pub(super) const CONTENTS: &str = "\
With --offset: write the element's contents alone, without its header and its
end-of-contents octets";

pub(super) const OFFSETS: &str = "\
Write the offsets of the strings that are opened, with commas between them: --inside of
tlvdump takes up to 16 of them";

pub(super) const RAW: &str = "Write the decoded octets, and nothing else";

pub(super) const WHY: &str = "Say whether the input parses; if not, why, in sentences";

pub(super) const AS: &str = "\
Take the input for octets, pem, dump, hex, numbers, base64 or runs (base64 inside another
text) [default: what its octets decide]";

pub(super) const RULES: &str = "\
Show what violates the rules of BER, DER or CER: ber, der or cer; those of DER and CER
include those of BER [default: ber, and der with --check]";

pub(super) const LIMIT: &str = "\
Write at most N rows of each value, and \"...\" for the rest: 0 to 4294967295
[default: all rows]";

pub(super) const PURE: &str = "\
Leave out the first columns, those of offsets and lengths, and the lines of findings,
so that dumps can be compared";

pub(super) const NAMES: &str = "\
A file of names for object identifiers: lines such as \"2.5.4.3 commonName\", and
lines of comment that begin with \"#\" [default: that of the installation]";

pub(super) const CLOSED: &str = "Open no string";

pub(super) const NO_TEXT: &str = "Show no text beside pairs of digits";

pub(super) const PADDING: &str = "\
Allow octets 00 before, between and after the encodings, as files of records have
them";
