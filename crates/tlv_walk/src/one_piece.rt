//! The following of a piece: the events that a walker yields for it, and what a follower makes of them.
ghost use Rattle.std.specs.Prelude.{◌≡◌, []};
ghost use Rattle.tlv_walk.specs.Follow.{ReturnsEffect};
ghost use Rattle.tlv_walk.specs.Private.FollowsPiece.{FollowsAndFlushes, FollowsOneOrNone, FollowsPiece};
ghost use Rattle.tlv_walk.specs.Private.FollowsPiece.{FollowsPrefix, follow_states};
ghost use Rattle.tlv_walk.specs.Private.WalkerCalls.{CanPass, EndsBeyond};
ghost use Rattle.tlv_walk.specs.Walker.{IsWithinInputLimit};
ghost use Rattle.tlv_io.specs.Out.{held_octets};
ghost use Rattle.tlv_walk.specs.Events.{event_value_of};

use crate::walker::{HolderEnd, WholePrimitive};
use crate::{Drain, Event, Follow, Go, Out, Step, Walker, WriteFault};
use tlv_head::{Fault, Header};

/// Why a piece is followed no further.
#[derive(Clone, Copy)]
pub(crate) enum Pause {
    /// The piece is used up, and no event waits.
    UsedUp,
    /// An octet is refused.
    Fault(Fault),
    /// The follower had enough.
    Enough,
}

/// Walks over a piece, lets the follower follow each event, and hands the follower's output to the drain. A piece in
/// the midst of long contents is one event, and needs none of the questions that [`follow`] asks.
#[inline(always)]
pub(crate) fn follow_piece<F: Follow, D: Drain>(
    walker: &mut Walker<'_>,
    follower: &mut F,
    piece: &[u8],
    out: &mut Out<'_, D>,
) -> Result<Pause, WriteFault>
    requires limit { IsWithinInputLimit walker.old piece.now }
    requires empty { held_octets out.old ≡ [] }
    ensures { FollowsAndFlushes F.next D.state
        (follow_states walker.old follower.old out.old)
        (follow_states walker.new follower.new out.new)
        piece.now result }
{
    match walker.left_beyond(piece) {
        Some(left) => follow_contents(walker, follower, left, piece, out),
        None => follow_and_flush(walker, follower, piece, out),
    }
}

/// Follows a piece that has some contents of the open primitive and nothing else, and hands the follower's output to
/// the drain. `left` is the number of contents octets still to come, which are more than the piece has.
#[inline(never)]
fn follow_contents<F: Follow, D: Drain>(
    walker: &mut Walker<'_>,
    follower: &mut F,
    left: u64,
    piece: &[u8],
    out: &mut Out<'_, D>,
) -> Result<Pause, WriteFault>
    requires beyond { EndsBeyond walker.old left piece.now }
    requires limit { IsWithinInputLimit walker.old piece.now }
    requires empty { held_octets out.old ≡ [] }
    ensures { FollowsAndFlushes F.next D.state
        (follow_states walker.old follower.old out.old)
        (follow_states walker.new follower.new out.new)
        piece.now result }
{
    let mut rest = piece;
    let event = walker.contents(left, &mut rest);
    let go = follow_event(follower, &event, out)?;
    out.flush()?;
    match go {
        Go::On => Ok(Pause::UsedUp),
        Go::Enough => Ok(Pause::Enough),
    }
}

/// Walks over a piece, lets the follower follow each event, and hands the follower's output to the drain.
fn follow_and_flush<F: Follow, D: Drain>(
    walker: &mut Walker<'_>,
    follower: &mut F,
    piece: &[u8],
    out: &mut Out<'_, D>,
) -> Result<Pause, WriteFault>
    requires limit { IsWithinInputLimit walker.old piece.now }
    requires empty { held_octets out.old ≡ [] }
    ensures { FollowsAndFlushes F.next D.state
        (follow_states walker.old follower.old out.old)
        (follow_states walker.new follower.new out.new)
        piece.now result }
{
    let pause = follow(walker, follower, piece, out)?;
    out.flush()?;
    Ok(pause)
}

/// Walks over a piece, and lets the follower follow each event.
fn follow<F: Follow, D: Drain>(
    walker: &mut Walker<'_>,
    follower: &mut F,
    piece: &[u8],
    out: &mut Out<'_, D>,
) -> Result<Pause, WriteFault>
    requires { IsWithinInputLimit walker.old piece.now }
    ensures { FollowsPiece F.next D.state
        (follow_states walker.old follower.old out.old)
        (follow_states walker.new follower.new out.new)
        piece.now result }
{
    let mut rest = piece;
    'events: loop {
        if follow_primitive(walker, follower, &mut rest, out)? {
            continue;
        }
        let go = if let Some(end) = walker.close(&mut rest) {
            match end {
                HolderEnd::Close(offset) => follower.on(&Event::Close(offset), out)?,
                HolderEnd::Leave => follow_event(follower, &Event::Leave, out)?,
            }
        } else if let Some((fields, octets)) = walker.constructed(&mut rest) {
            follower.open(&fields, octets, out)?
        } else if let Some(event) = walker.contents_event(&mut rest) {
            follower.on(&event, out)?
        } else {
            // This lends a copy, so that `rest` itself stays in registers.
            let mut left = rest;
            let go = match follow_string(walker, follower, &mut left, out)? {
                Some(go) => go,
                None => match walker.step(&mut left) {
                    Step::Event(event) => follow_event(follower, &event, out)?,
                    Step::NeedMore => return Ok(Pause::UsedUp),
                    Step::Fault(fault) => return Ok(Pause::Fault(fault)),
                },
            };
            rest = left;
            go
        };
        if go == Go::Enough {
            return Ok(Pause::Enough);
        }
    }
}

/// Follows the primitive with which the piece begins in one go, if its header has few octets, all of it is in the
/// piece, and the follower accepts it so. Returns whether it was followed; otherwise takes nothing.
#[inline(always)]
fn follow_primitive<F: Follow, D: Drain>(
    walker: &mut Walker<'_>,
    follower: &mut F,
    piece: &mut &[u8],
    out: &mut Out<'_, D>,
) -> Result<bool, WriteFault>
    requires { IsWithinInputLimit walker.old piece.old.now }
    ensures { FollowsPrefix F.next D.state
        (follow_states walker.old follower.old out.old)
        (follow_states walker.new follower.new out.new)
        piece.old.now piece.new.now result }
{
    // Most headers have two octets. When that is known, most branches of the code for a primitive fall away, so such
    // primitives have code of their own.
    if let Some(primitive) = walker.primitive(*piece, true) {
        return follow_found(walker, follower, &primitive, piece, out);
    }
    if let Some(primitive) = walker.primitive(*piece, false) {
        return follow_found(walker, follower, &primitive, piece, out);
    }
    Ok(false)
}

/// Follows the primitive with which the piece begins, as the walker found, if the follower takes it in one go.
/// Returns whether it was followed; otherwise takes nothing.
#[inline(always)]
fn follow_found<F: Follow, D: Drain>(
    walker: &mut Walker<'_>,
    follower: &mut F,
    primitive: &WholePrimitive,
    piece: &mut &[u8],
    out: &mut Out<'_, D>,
) -> Result<bool, WriteFault>
    requires can { CanPass walker.old piece.old.now primitive.now }
    requires limit { IsWithinInputLimit walker.old piece.old.now }
    ensures { FollowsPrefix F.next D.state
        (follow_states walker.old follower.old out.old)
        (follow_states walker.new follower.new out.new)
        piece.old.now piece.new.now result }
{
    let octets = *piece;
    let header = Header::new(&primitive.fields, &octets[..primitive.header_length]);
    if !follower.whole(&header, &octets[..primitive.octet_count], out)? {
        return Ok(false);
    }
    walker.pass(primitive, piece);
    Ok(true)
}

/// Follows the header of a string that holds encodings, or the first contents octet of such a BIT STRING, if the
/// piece begins with it. If so, returns whether the follower wants more; otherwise takes nothing. A separate function
/// keeps the loop of [`follow`] small.
#[inline(never)]
fn follow_string<F: Follow, D: Drain>(
    walker: &mut Walker<'_>,
    follower: &mut F,
    piece: &mut &[u8],
    out: &mut Out<'_, D>,
) -> Result<Option<Go>, WriteFault>
    requires { IsWithinInputLimit walker.old piece.old.now }
    ensures { FollowsOneOrNone F.next D.state
        (follow_states walker.old follower.old out.old)
        (follow_states walker.new follower.new out.new)
        piece.old.now piece.new.now result }
{
    if walker.no_unused_bits(piece) {
        let go = follower.on(&Event::Unused, out)?;
        return Ok(Some(go));
    }
    if let Some((fields, octets)) = walker.wrapper(piece) {
        let go = follower.enter(&fields, octets, out)?;
        return Ok(Some(go));
    }
    Ok(None)
}

/// Lets the follower follow an event. A separate function for the rare events, so that the follower is inlined only
/// where speed counts.
#[inline(never)]
fn follow_event<F: Follow, D: Drain>(
    follower: &mut F,
    event: &Event<'_>,
    out: &mut Out<'_, D>,
) -> Result<Go, WriteFault>
    ensures { ReturnsEffect D.state (F.next follower.old (event_value_of event.now))
        out.old out.new follower.new result }
{
    follower.on(event, out)
}
