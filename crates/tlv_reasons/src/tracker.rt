//! Records from the events of a walk what is open, and what came last.
ghost use Rattle.std.specs.Prelude.{◌≡◌, ◌<◌, ◌+◌, length};
ghost use Rattle.tlv_walk.specs.Events.{event_octets, event_value_of};
ghost use Rattle.tlv_reasons.specs.Private.Tracking.{bit_string_opened, element_ended, holder_noted, holder_ended};
ghost use Rattle.tlv_reasons.specs.Private.Tracking.{innermost, new_tracker, primitive_ended, track, with_nearest};
ghost use Rattle.tlv_reasons.specs.Private.Tracking.{wrapper_entered};

use crate::Element;
use crate::element::element_of;
use arrayvec::ArrayVec;
use tlv_head::universal;
use tlv_walk::Event;

/// What is recorded from the events of a walk.
#[derive(Drop)]
pub(crate) struct Tracker {
    /// The elements that hold others and have not ended, outermost first.
    pub holders: ArrayVec<Element, 128>,
    /// The primitive that has begun and has not ended.
    pub current: Option<Element>,
    /// The BIT STRING that is named and holds encodings, while only its header has come.
    pub entered: Option<Element>,
    /// The last whole element directly inside the innermost open element.
    pub before: Option<Element>,
    /// The offset after the last whole outermost element.
    pub top: u64,
    /// The offsets of the last 25 elements, the nearest first.
    pub nearest: ArrayVec<u64, 25>,
    /// The offset after the last event.
    pub offset: u64,
}

impl Tracker {
    /// The tracker before the first event.
    pub fn new() -> Tracker
        ensures { result ≡ new_tracker }
    {
        Tracker {
            holders: ArrayVec::new(),
            current: None,
            entered: None,
            before: None,
            top: 0,
            nearest: ArrayVec::new(),
            offset: 0,
        }
    }

    /// Records an event, after which the walk is at this offset.
    pub fn note(&mut self, event: &Event<'_>, offset: u64)
        requires { offset ≡ self.old.offset + length (event_octets (event_value_of event.now)) }
        ensures { self.new ≡ track self.old (event_value_of event.now) }
    {
        self.offset = offset;
        match event {
            Event::Open(header) => self.begin_holder(element_of(header)),
            Event::Enter(header) => self.enter(element_of(header)),
            Event::Unused => self.open_bit_string(),
            Event::Begin(header) => self.current = Some(element_of(header)),
            Event::End => self.end_primitive(),
            Event::Close(_) | Event::Leave => self.end_holder(),
            Event::Bytes(_) | Event::Pad(_) => {}
        }
    }

    /// Records that an element that holds others begins.
    fn begin_holder(&mut self, element: Element)
        ensures { self.new ≡ holder_noted element self.old }
    {
        if self.holders.is_full() {
            return;
        }
        self.add_nearest(element.offset);
        self.holders.push(element);
        self.before = None;
    }

    /// Records that a string that is named and holds encodings begins. A BIT STRING still lacks its first contents
    /// octet.
    fn enter(&mut self, element: Element)
        ensures { self.new ≡ wrapper_entered element self.old }
    {
        if element.number == universal::BIT_STRING {
            self.entered = Some(element);
        } else {
            self.begin_holder(element);
        }
    }

    /// Records that the first contents octet of the BIT STRING that holds encodings has come.
    fn open_bit_string(&mut self)
        ensures { self.new ≡ bit_string_opened self.old.entered self.old }
    {
        if let Some(element) = self.entered {
            self.entered = None;
            self.begin_holder(element);
        }
    }

    /// Records that the primitive that has begun ends.
    fn end_primitive(&mut self)
        ensures { self.new ≡ primitive_ended self.old.current self.old }
    {
        let Some(element) = self.current else {
            return;
        };
        self.add_nearest(element.offset);
        self.current = None;
        self.end_element(element);
    }

    /// Records that the innermost element that holds others ends.
    fn end_holder(&mut self)
        ensures { self.new ≡ holder_ended (innermost self.old) self.old }
    {
        if let Some(element) = self.holders.pop() {
            self.end_element(element);
        }
    }

    /// Records that an element is whole.
    fn end_element(&mut self, element: Element)
        ensures { self.new ≡ element_ended element self.old }
    {
        self.before = Some(element);
        if self.holders.is_empty() {
            self.top = self.offset;
        }
    }

    /// Puts an offset in front of the nearest offsets.
    fn add_nearest(&mut self, offset: u64)
        ensures { self.new ≡ with_nearest offset self.old }
    {
        self.nearest.truncate(24);
        self.nearest.insert(0, offset);
    }
}
