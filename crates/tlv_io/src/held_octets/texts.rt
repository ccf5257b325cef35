//! Texts that overwrite the first octets of a slice.
ghost use Rattle.std.specs.Prelude.{◌≡◌, ◌+◌, ◌*◌, ◌≤◌, length, true};
ghost use Rattle.tlv_io.specs.LineTexts.{spaced_pairs, spaces};
ghost use Rattle.tlv_io.specs.Private.WritesOver.{WritesOver};

use super::pair_table::PairTable;

/// Writes spaces, and up to 32 more after them.
#[inline(always)]
pub(super) fn fill_spaces(to: &mut [u8], count: usize)
    requires { count + 32 ≤ length to.old }
    ensures { WritesOver count to.old to.new (spaces count) }
{
    to[..32].copy_from_slice(&[b' '; 32]);
    if count > 32 {
        fill_more_spaces(to, count);
    }
}

/// Writes spaces in steps of 32.
#[inline(never)]
fn fill_more_spaces(to: &mut [u8], count: usize)
    requires { count + 32 ≤ length to.old }
    ensures { WritesOver count to.old to.new (spaces count) }
{
    let mut done = 0;
    while done < count {
        to[done..done + 32].copy_from_slice(&[b' '; 32]);
        done += 32;
    }
}

/// Writes octets as pairs of digits, each pair after a space.
#[inline(always)]
pub(super) fn write_spaced_pairs(octets: &[u8], pairs: &PairTable, to: &mut [u8])
    requires filled { pairs.now.is_filled ≡ true }
    requires room { 3 * length octets.now ≤ length to.old }
    ensures { WritesOver (3 * length octets.now) to.old to.new (spaced_pairs octets.now) }
{
    for i in 0..octets.len() {
        to[3 * i] = b' ';
        let [high, low] = pairs.pair(octets[i]);
        to[3 * i + 1] = high;
        to[3 * i + 2] = low;
    }
}

/// Writes 16 octets as pairs of digits, each pair after a space. All the spaces are copied first, at once.
#[inline(always)]
pub(super) fn write_spaced_row(octets: &[u8; 16], pairs: &PairTable, to: &mut [u8])
    requires filled { pairs.now.is_filled ≡ true }
    requires room { 48 ≤ length to.old }
    ensures { WritesOver 48 to.old to.new (spaced_pairs octets.now) }
{
    to[..48].copy_from_slice(&[b' '; 48]);
    for i in 0..16 {
        let [high, low] = pairs.pair(octets[i]);
        to[3 * i + 1] = high;
        to[3 * i + 2] = low;
    }
}
