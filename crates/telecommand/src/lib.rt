// Document 01, 'Frames': the header of a TC frame (CCSDS 232.0), and the segment header behind it.
#![tactic(auto)]

ghost use Rattle.std.specs.Prelude.{◌≡◌, ◌-◌};
ghost use Rattle.headers.specs.Fields.{tc_spacecraft, tc_channel, segment_map};
ghost use Rattle.headers.specs.Telecommand.{tc_rules, tc_length_ok, tc_holds_length, tc_with_length};

use headers::wide;
use octets::octet_at;

#[derive(Clone, Copy)]
pub struct Tc;

impl Tc {
    // Version, control and spare are 0.
    pub fn keeps_rules(frame: &[u8]) -> bool
        ensures { result ≡ tc_rules frame.now }
    {
        let first = octet_at(frame, 0);
        (first / 64 == 0) & (first / 16 % 2 == 0) & (first / 4 % 4 == 0)
    }

    // The length field counts all octets of the frame less one.
    pub fn counts_length(frame: &[u8]) -> bool
        ensures { result ≡ tc_length_ok frame.now }
    {
        let length = wide(octet_at(frame, 2) % 4) * 256 + wide(octet_at(frame, 3));
        (length + 1) as usize == frame.len()
    }

    // The length field for a frame of n octets, in place; false, and nothing written, where the slice ends before the field does.
    pub fn rewrite_length(frame: &mut [u8], n: usize) -> bool
        ensures { (result ≡ tc_holds_length frame.old) × (frame.new ≡ tc_with_length n frame.old) }
    {
        if 3 < frame.len() {
            let count = n.saturating_sub(1);
            frame[2] = frame[2] / 4 * 4 + (count / 256 % 4) as u8;
            frame[3] = (count % 256) as u8;
            return true;
        }
        false
    }

    pub fn spacecraft(frame: &[u8]) -> u16
        ensures { result ≡ tc_spacecraft frame.now }
    {
        wide(octet_at(frame, 0) % 4) * 256 + wide(octet_at(frame, 1))
    }

    pub fn channel(frame: &[u8]) -> u8
        ensures { result ≡ tc_channel frame.now }
    {
        octet_at(frame, 2) / 4
    }
}

// The segment header, the octet behind the five of the header.
#[derive(Clone, Copy)]
pub struct Segment;

impl Segment {
    pub fn map(frame: &[u8]) -> u8
        ensures { result ≡ segment_map frame.now }
    {
        octet_at(frame, 5) % 64
    }
}
