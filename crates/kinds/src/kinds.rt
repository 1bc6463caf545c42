// Document 01, 'Frames' and 'The image', and document 02, requests 1 and 6: one enum of kinds, which answers for whichever kind the caller
// named.
ghost use Rattle.std.specs.Prelude.{◌≡◌};
ghost use Rattle.kinds.specs.Kinds.{kind_is, named};

use aos::Aos;
use telecommand::{Segment, Tc};
use telemetry::Tm;

// The octets of each header; a segment header is one more, and a secondary header is not counted here.
const TC_HEADER: usize = 5;

const SEGMENTED_HEADER: usize = TC_HEADER + 1;

const TM_PRIMARY: usize = 6;

const AOS_HEADER: usize = 6;

// The most that a segment header holds as MAP.
const MOST_MAP: u8 = 63;

#[derive(Clone, Copy)]
pub enum Kind {
    Tc,
    SegmentedTc,
    Tm,
    Aos,
}

// The kind that a number names, if it names one.
pub fn kind_of(number: u8) -> Option<Kind>
    ensures { result ≡ named number }
{
    match number {
        1 => Some(Kind::Tc),
        2 => Some(Kind::SegmentedTc),
        3 => Some(Kind::Tm),
        4 => Some(Kind::Aos),
        _ => None,
    }
}

impl Kind {
    // h of the paper.
    pub fn header_length(self, frame: &[u8]) -> usize
        ensures { result ≡ (kind_is self).header frame.now }
    {
        match self {
            Kind::Tc => TC_HEADER,
            Kind::SegmentedTc => SEGMENTED_HEADER,
            Kind::Tm => Tm::header_length(frame),
            Kind::Aos => AOS_HEADER,
        }
    }

    // f of the paper, but for a check field.
    pub fn trailer_length(self, frame: &[u8]) -> usize
        ensures { result ≡ (kind_is self).trailer frame.now }
    {
        match self {
            Kind::Tc => 0,
            Kind::SegmentedTc => 0,
            Kind::Tm => Tm::trailer_length(frame),
            Kind::Aos => 0,
        }
    }

    // The octets of the header that the mask covers, whatever the frame.
    pub fn under_mask(self) -> usize
        ensures { result ≡ (kind_is self).under_mask }
    {
        match self {
            Kind::Tc => TC_HEADER,
            Kind::SegmentedTc => SEGMENTED_HEADER,
            Kind::Tm => TM_PRIMARY,
            Kind::Aos => AOS_HEADER,
        }
    }

    pub fn largest(self) -> usize
        ensures { result ≡ (kind_is self).largest }
    {
        match self {
            Kind::Tc => 1024,
            Kind::SegmentedTc => 1024,
            Kind::Tm => 2048,
            Kind::Aos => 2048,
        }
    }

    // Whether a check field may stand at the end.
    pub fn may_end_in_field(self) -> bool
        ensures { result ≡ (kind_is self).may_end_in_field }
    {
        match self {
            Kind::Tc => true,
            Kind::SegmentedTc => true,
            Kind::Tm => true,
            Kind::Aos => false,
        }
    }

    // The rules on the bits of the header.
    pub fn keeps_rules(self, frame: &[u8]) -> bool
        ensures { result ≡ (kind_is self).rules frame.now }
    {
        match self {
            Kind::Tc => Tc::keeps_rules(frame),
            Kind::SegmentedTc => Tc::keeps_rules(frame),
            Kind::Tm => Tm::keeps_rules(frame),
            Kind::Aos => Aos::keeps_rules(frame),
        }
    }

    // A kind with no length field has none that could be wrong.
    pub fn counts_length(self, frame: &[u8]) -> bool
        ensures { result ≡ (kind_is self).length_ok frame.now }
    {
        match self {
            Kind::Tc => Tc::counts_length(frame),
            Kind::SegmentedTc => Tc::counts_length(frame),
            Kind::Tm => true,
            Kind::Aos => true,
        }
    }

    // The length field for a frame of n octets, in place: of a header, or of a frame that starts with it. Whether there is one: the kind may
    // have none, or the octets end before it.
    pub fn rewrite_length(self, frame: &mut [u8], n: usize) -> bool
        ensures { (result ≡ (kind_is self).holds_length frame.old) × (frame.new ≡ (kind_is self).with_length n frame.old) }
    {
        match self {
            Kind::Tc | Kind::SegmentedTc => Tc::rewrite_length(frame, n),
            Kind::Aos | Kind::Tm => false,
        }
    }

    pub fn spacecraft(self, frame: &[u8]) -> u16
        ensures { result ≡ (kind_is self).spacecraft frame.now }
    {
        match self {
            Kind::Tc => Tc::spacecraft(frame),
            Kind::SegmentedTc => Tc::spacecraft(frame),
            Kind::Tm => Tm::spacecraft(frame),
            Kind::Aos => Aos::spacecraft(frame),
        }
    }

    pub fn channel(self, frame: &[u8]) -> u8
        ensures { result ≡ (kind_is self).channel frame.now }
    {
        match self {
            Kind::Tc => Tc::channel(frame),
            Kind::SegmentedTc => Tc::channel(frame),
            Kind::Tm => Tm::channel(frame),
            Kind::Aos => Aos::channel(frame),
        }
    }

    // 0 for a kind that has no MAP.
    pub fn map(self, frame: &[u8]) -> u8
        ensures { result ≡ (kind_is self).map frame.now }
    {
        match self {
            Kind::Tc => 0,
            Kind::SegmentedTc => Segment::map(frame),
            Kind::Tm => 0,
            Kind::Aos => 0,
        }
    }

    // The most that the image may hold as spacecraft, channel and MAP of this kind.
    pub fn most_spacecraft(self) -> u16
        ensures { result ≡ (kind_is self).most_spacecraft }
    {
        match self {
            Kind::Tc => 1023,
            Kind::SegmentedTc => 1023,
            Kind::Tm => 1023,
            Kind::Aos => 255,
        }
    }

    pub fn most_channel(self) -> u8
        ensures { result ≡ (kind_is self).most_channel }
    {
        match self {
            Kind::Tc => 63,
            Kind::SegmentedTc => 63,
            Kind::Tm => 7,
            Kind::Aos => 63,
        }
    }

    pub fn most_map(self) -> u8
        ensures { result ≡ (kind_is self).most_map }
    {
        match self {
            Kind::Tc => 0,
            Kind::SegmentedTc => MOST_MAP,
            Kind::Tm => 0,
            Kind::Aos => 0,
        }
    }
}
