//! How lines begin.
ghost use Rattle.std.specs.Prelude.{◌≡◌, ◌≢◌, ◌+◌, ◌≤◌, ◌++◌, ◌∷◌, ℕ, [], codes, decimal, if◌then◌else◌, take};
ghost use Rattle.tlv_io.specs.LineTexts.{AddsAtMost, HasRoomFor};
ghost use Rattle.tlv_io.specs.OutLimits.{line_start_limit, line_start_room};
ghost use Rattle.tlv_head.specs.Tag.{bracketed_tag, tag_text};
ghost use Rattle.tlv_value.specs.Layout.{blank_columns, columns, margin, spaces};
ghost use Rattle.tlv_value.specs.Private.Rows.{row_indent, row_margin};

use crate::Layout;
use tlv_head::{Class, type_name_block};
use tlv_io::HeldOctets;

/// Begins a line with its first columns (an offset and the number of contents octets) and its indentation. Leaves out
/// the first columns if `layout.pure` is set.
#[inline(always)]
pub fn begin_sized(held: &mut HeldOctets, layout: Layout, offset: u64, size: u64)
    requires { HasRoomFor held.old line_start_room }
    ensures { AddsAtMost line_start_limit held.old held.new
        (margin layout (columns offset (decimal size))) }
{
    write_sized(held, layout.pure, offset, size);
    held.spaces(2 * usize::from(layout.level));
}

/// Adds the first columns, an offset and the number of contents octets, unless `pure` is set.
#[inline(always)]
fn write_sized(held: &mut HeldOctets, pure: bool, offset: u64, size: u64)
    requires { HasRoomFor held.old 50 }
    ensures { AddsAtMost 43 held.old held.new (if pure then [] else columns offset (decimal size)) }
{
    if !pure {
        held.columns(offset, size);
    }
}

/// Begins a line with its first columns (an offset and a word of six places) and its indentation. Leaves out the
/// first columns if `layout.pure` is set.
#[inline(always)]
pub fn begin_word(held: &mut HeldOctets, layout: Layout, offset: u64, word: &[u8; 6])
    requires { HasRoomFor held.old line_start_room }
    ensures { AddsAtMost line_start_limit held.old held.new
        (margin layout (columns offset word.now)) }
{
    write_worded(held, layout.pure, offset, word);
    held.spaces(2 * usize::from(layout.level));
}

/// Adds the first columns, an offset and a word, unless `pure` is set.
#[inline(always)]
fn write_worded(held: &mut HeldOctets, pure: bool, offset: u64, word: &[u8; 6])
    requires { HasRoomFor held.old 50 }
    ensures { AddsAtMost 43 held.old held.new (if pure then [] else columns offset word.now) }
{
    if !pure {
        held.word_columns(offset, word);
    }
}

/// Begins a line that has no offset: 17 spaces in place of the first columns, and its indentation. Leaves out these
/// 17 spaces if `layout.pure` is set.
#[inline(always)]
pub fn begin_blank(held: &mut HeldOctets, layout: Layout)
    requires { HasRoomFor held.old line_start_room }
    ensures { AddsAtMost line_start_limit held.old held.new (margin layout blank_columns) }
{
    held.spaces(blank_column_count(layout.pure) + 2 * usize::from(layout.level));
}

/// The number of spaces before a row.
#[inline(always)]
pub(crate) fn row_indent(layout: Layout) -> usize
    ensures value { result ≡ row_indent layout }
    ensures text { spaces result ≡ row_margin layout }
    ensures two_or_more { 2 ≤ result }
    ensures within { result ≤ 529 }
{
    blank_column_count(layout.pure) + 2 * (usize::from(layout.level) + 1)
}

/// The number of spaces in place of the first columns.
#[inline(always)]
fn blank_column_count(pure: bool) -> usize
    ensures { result ≡ (if pure then 0 else 17) }
{
    if pure { 0 } else { 17 }
}

/// Adds the text of a tag: at most 40 octets.
#[inline(always)]
pub fn write_tag(held: &mut HeldOctets, class: Class, number: u64)
    requires { HasRoomFor held.old 40 }
    ensures { AddsAtMost 40 held.old held.new (tag_text class number) }
{
    if matches!(class, Class::Universal) {
        write_universal(held, number);
    } else {
        write_bracketed(held, class, number);
    }
}

/// Adds the text of a universal tag: the name of its type, if it has one.
#[inline(always)]
fn write_universal(held: &mut HeldOctets, number: u64)
    requires { HasRoomFor held.old 40 }
    ensures { AddsAtMost 40 held.old held.new (tag_text Class.Universal number) }
{
    match type_name_block(number) {
        Some((name, size)) => held.add_prefix(name, size),
        None => write_bracketed(held, Class::Universal, number),
    }
}

/// Adds the text of a tag that has no name: in brackets a word for the class, and the number.
#[inline(never)]
fn write_bracketed(held: &mut HeldOctets, class: Class, number: u64)
    requires { HasRoomFor held.old 40 }
    ensures universal { class ≡ Class.Universal
        → AddsAtMost 40 held.old held.new (bracketed_tag (codes "UNIVERSAL ") number) }
    ensures other { class ≢ Class.Universal → AddsAtMost 40 held.old held.new (tag_text class number) }
{
    let (prefix, count) = bracket_block(class);
    held.add_prefix(prefix, count);
    held.number(number);
    held.add(b"]");
}

/// A block that begins with the text before the number of a tag that has no name, and the number of octets of that
/// text. The classes of elements that follow one another differ, so no branch depends on which of them it is.
#[inline(always)]
fn bracket_block(class: Class) -> (&'static [u8; 32], usize)
    ensures universal { class ≡ Class.Universal → take result.1 result.0.now ≡ codes "[UNIVERSAL " }
    ensures other { class ≢ Class.Universal → (number : ℕ)
        → take result.1 result.0.now ++ decimal number ++ 93 ∷ [] ≡ tag_text class number }
    ensures within { result.1 ≤ 16 }
{
    match class {
        Class::Universal => (b"[UNIVERSAL                      ", 11),
        Class::Application => (b"[APPLICATION                    ", 13),
        Class::Context => (b"[                               ", 1),
        Class::Private => (b"[PRIVATE                        ", 9),
    }
}

/// Begins the line of an element with its first columns, its indentation and its tag text. Leaves out the first
/// columns if `layout.pure` is set.
#[inline(always)]
pub(crate) fn begin_element(
    held: &mut HeldOctets,
    layout: Layout,
    offset: u64,
    class: Class,
    number: u64,
    size: u64,
)
    requires { HasRoomFor held.old 640 }
    ensures { AddsAtMost 593 held.old held.new
        (margin layout (columns offset (decimal size)) ++ tag_text class number) }
{
    begin_sized(held, layout, offset, size);
    write_tag(held, class, number);
}
