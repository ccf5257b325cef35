//! Followers of a walk.
ghost use Rattle.std.specs.Prelude.{◌≡◌, IsErr, Ok, false, true};
ghost use Rattle.tlv_head.specs.HeaderFields.{IsHeaderSized, new_header};
ghost use Rattle.tlv_walk.specs.Events.{Bytes, Enter, EventValue, Open, Pad, event_value_of};
ghost use Rattle.tlv_walk.specs.Follow.{Effect, FollowsWhole, GoesOn, HasEffect, IgnoresEmpty, IsWholeElement, Joins};
ghost use Rattle.tlv_walk.specs.Follow.{LeavesWhole, ReturnsEffect, whole_effect};

use crate::{Drain, Event, Out, WriteFault};
use tlv_head::{Header, HeaderFields};

/// Whether a follower wants more.
#[derive(Clone, Copy, Debug, PartialEq, Eq)]
pub enum Go {
    /// The follower wants more.
    On,
    /// The follower wants nothing more.
    Enough,
}

/// A follower of a walk: takes its events one by one, and puts octets to an [`Out`].
///
/// `next` is the effect of an event on the follower, and obeys six laws. Because of them, how an input is cut into
/// pieces has no effect on what a follower does (`laws::pieces_do_not_show`).
pub trait Follow {
    /// The effect of an event on the follower.
    ghost next: { Self → EventValue → Effect Self };

    /// Follows the next event. Returns whether it wants more.
    ///
    /// # Errors
    ///
    /// `WriteFault` if and only if a write failed. The drain then has a prefix of the octets put before and the
    /// octets to be put now.
    fn on<D: Drain>(&mut self, event: &Event<'_>, out: &mut Out<'_, D>) -> Result<Go, WriteFault>
        ensures { ReturnsEffect D.state (next self.old (event_value_of event.now)) out.old out.new
            self.new result };

    /// Follows an element as a primitive: its header, its contents and its end, one after another. All its octets,
    /// header and contents, are at hand. If the follower does this, it wants more after each of the three, and returns
    /// `true`. It may decline: it then returns `false`, has put nothing and changed nothing, and the events come to
    /// [`Follow::on`].
    ///
    /// # Errors
    ///
    /// As for [`Follow::on`].
    #[inline(always)]
    fn whole<D: Drain>(
        &mut self,
        header: &Header,
        octets: &[u8],
        out: &mut Out<'_, D>,
    ) -> Result<bool, WriteFault>
        requires whole { IsWholeElement header.now octets.now }
        ensures followed { result ≡ Ok true → FollowsWhole D.state
            (whole_effect next self.old header.now octets.now) out.old out.new self.new }
        ensures left { result ≡ Ok false → LeavesWhole D.state out.old out.new self.old self.new }
        ensures failed { IsErr result → HasEffect D.state
            (whole_effect next self.old header.now octets.now) out.old out.new self.new result }
    {
        Ok(false)
    }

    /// Follows the header of a constructed element, given by its fields and its octets, as [`Follow::on`] follows
    /// [`Event::Open`] with that header. A follower that needs no [`Header`] can avoid making one.
    ///
    /// # Errors
    ///
    /// As for [`Follow::on`].
    #[inline(always)]
    fn open<D: Drain>(
        &mut self,
        fields: &HeaderFields,
        octets: &[u8],
        out: &mut Out<'_, D>,
    ) -> Result<Go, WriteFault>
        requires sized { IsHeaderSized fields.now octets.now }
        requires constructed { fields.now.constructed ≡ true }
        ensures { ReturnsEffect D.state (next self.old (Open (new_header fields.now octets.now)))
            out.old out.new self.new result }
    {
        self.on(&Event::Open(Header::new(fields, octets)), out)
    }

    /// Follows the header of a string that holds encodings, given by its fields and its octets, as [`Follow::on`]
    /// follows [`Event::Enter`] with that header.
    ///
    /// # Errors
    ///
    /// As for [`Follow::on`].
    #[inline(always)]
    fn enter<D: Drain>(
        &mut self,
        fields: &HeaderFields,
        octets: &[u8],
        out: &mut Out<'_, D>,
    ) -> Result<Go, WriteFault>
        requires { IsHeaderSized fields.now octets.now }
        ensures { ReturnsEffect D.state (next self.old (Enter (new_header fields.now octets.now)))
            out.old out.new self.new result }
    {
        self.on(&Event::Enter(Header::new(fields, octets)), out)
    }

    // Contents in two parts are followed as the same contents in one part, and empty contents as no event. After
    // contents, the follower wants more. The same holds for padding.
    ghost bytes_join: { Joins next Bytes };

    ghost bytes_empty: { IgnoresEmpty next Bytes };

    ghost bytes_go_on: { GoesOn next Bytes };

    ghost pad_join: { Joins next Pad };

    ghost pad_empty: { IgnoresEmpty next Pad };

    ghost pad_go_on: { GoesOn next Pad };
}
