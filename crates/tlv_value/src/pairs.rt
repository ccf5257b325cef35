//! Pairs of digits, and the text beside them.
ghost use Rattle.std.specs.List.{list_all};
ghost use Rattle.std.specs.Prelude.{◌≡◌, ◌+◌, ◌*◌, ◌≤◌, ◌++◌, ◌∷◌, codes, length};
ghost use Rattle.tlv_io.specs.LineTexts.{HasRoomFor};
ghost use Rattle.tlv_value.specs.Private.UndottedText.{line_pairs};
ghost use Rattle.tlv_value.specs.Units.{is_printable};
ghost use Rattle.tlv_value.specs.TextBeside.{pairs_with_text, text_behind};
ghost use Rattle.tlv_value.specs.Private.Rows.{joined_pairs};

use tlv_io::HeldOctets;

/// Adds pairs of digits, each after a space. If text is wanted, adds the text of their octets after them.
#[inline(always)]
pub(crate) fn write_pairs(held: &mut HeldOctets, with_text: bool, octets: &[u8])
    requires { HasRoomFor held.old (4 * length octets.now + 4) }
    ensures { held.new ≡ held.old ++ line_pairs with_text octets.now }
{
    held.spaced_pairs(octets);
    if with_text {
        write_text_behind(held, octets);
    }
}

/// Adds a full row of pairs of digits, each after a space. If text is wanted, adds the text of its octets after them.
#[inline(always)]
pub(crate) fn write_full_row<const WITH_TEXT: bool>(held: &mut HeldOctets, row: &[u8; 16])
    requires { HasRoomFor held.old 68 }
    ensures { held.new ≡ held.old ++ line_pairs WITH_TEXT row.now }
{
    held.spaced_row(row);
    // All are looked at, since a branch for each octet is not foreseen where they are random.
    if WITH_TEXT && are_all_printable(row) {
        write_between_bars(held, row);
    }
}

/// Adds a row of pairs of digits after a space, with spaces between them. If text is wanted, adds the text of its
/// octets after them.
pub(crate) fn write_row_pairs(held: &mut HeldOctets, with_text: bool, row: &[u8])
    requires short { length row.now ≤ 64 }
    requires room { HasRoomFor held.old 261 }
    ensures { held.new ≡ held.old ++ 32 ∷ pairs_with_text with_text row.now (joined_pairs row.now) }
{
    write_joined_pairs(held, row);
    if with_text {
        write_text_behind(held, row);
    }
}

/// Adds pairs of digits after a space, and with spaces between them.
fn write_joined_pairs(held: &mut HeldOctets, octets: &[u8])
    requires short { length octets.now ≤ 64 }
    requires room { HasRoomFor held.old 192 }
    ensures { held.new ≡ held.old ++ 32 ∷ joined_pairs octets.now }
{
    if octets.is_empty() {
        held.add(b" ");
    } else {
        // Each pair brings the space before it.
        held.spaced_pairs(octets);
    }
}

/// Adds the octets between bars if they are three or more, and all printable. Most random octets are not all
/// printable, and do not cost a call.
#[inline(always)]
fn write_text_behind(held: &mut HeldOctets, octets: &[u8])
    requires { HasRoomFor held.old (length octets.now + 4) }
    ensures { held.new ≡ held.old ++ text_behind octets.now }
{
    if octets.len() >= 3 && are_printable(octets) {
        write_between_bars(held, octets);
    }
}

/// Adds octets between bars, after two spaces.
#[inline(never)]
fn write_between_bars(held: &mut HeldOctets, octets: &[u8])
    requires { HasRoomFor held.old (length octets.now + 4) }
    ensures { held.new ≡ held.old ++ codes "  |" ++ octets.now ++ codes "|" }
{
    held.add(b"  |");
    held.add(octets);
    held.add(b"|");
}

/// Whether all octets of a full row are printable ASCII. None is passed over, so that all are tested at a time.
#[inline(always)]
fn are_all_printable(row: &[u8; 16]) -> bool
    ensures { result ≡ list_all is_printable row.now }
{
    let mut all = true;
    for octet in row {
        all &= (*octet >= b' ') & (*octet <= b'~');
    }
    all
}

/// Whether all of the octets are printable ASCII.
pub(crate) fn are_printable(octets: &[u8]) -> bool
    ensures { result ≡ list_all is_printable octets.now }
{
    for octet in octets {
        if *octet < b' ' || *octet > b'~' {
            return false;
        }
    }
    true
}
