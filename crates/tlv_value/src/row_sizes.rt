//! Where a row of long contents ends.
ghost use Rattle.std.specs.Prelude.{◌≡◌, ◌+◌, ◌<◌, ◌≤◌, false, length, slice_index};
ghost use Rattle.tlv_value.specs.RowSizes.{has_room, row_size};
ghost use Rattle.tlv_io.specs.Cuts.{utf8_length};
ghost use Rattle.tlv_value.specs.Private.Room.{HaveRoom};

use tlv_head::Kind;

/// The number of octets that a row has room for.
pub(crate) fn row_size(kind: Kind) -> usize
    ensures { result ≡ row_size kind }
{
    match kind {
        Kind::Text | Kind::Utf8 | Kind::Ucs2 | Kind::Ucs4 => 64,
        _ => 16,
    }
}

/// How many of these octets, from the first on, fit into a row that already has `begun` octets.
pub(crate) fn fitting_length(kind: Kind, begun: usize, octets: &[u8]) -> usize
    requires { begun ≤ row_size kind }
    ensures within { result ≤ length octets.now }
    ensures short { begun + result ≤ row_size kind }
    ensures fits { HaveRoom kind begun octets.now result }
    ensures next { result < length octets.now
        → has_room kind (begun + result) (slice_index octets.now result) ≡ false }
{
    let most = octets.len().min(row_size(kind) - begun);
    if !matches!(kind, Kind::Utf8) {
        return most;
    }
    // A character has at most four octets, so only the last three places can lack room for one.
    for i in most.min(61_usize.saturating_sub(begun))..most {
        if begun + i + utf8_length(octets[i]) > 64 {
            return i;
        }
    }
    most
}

/// The number of octets of a UTF-8 character that begins with this octet (RFC 3629); 1 if no character does.
pub(crate) fn utf8_length(octet: u8) -> usize
    ensures value { result ≡ utf8_length octet }
    ensures within { result ≤ 4 }
{
    match octet {
        0xc2..=0xdf => 2,
        0xe0..=0xef => 3,
        0xf0..=0xf4 => 4,
        _ => 1,
    }
}
