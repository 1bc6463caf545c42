// Document 01, 'Frames', and document 02, request 6: the header of a TM frame (CCSDS 132.0), and the secondary header behind it.
#![tactic(auto)]

ghost use Rattle.std.specs.Prelude.{◌≡◌};
ghost use Rattle.headers.specs.Fields.{tm_spacecraft, tm_channel};
ghost use Rattle.headers.specs.Telemetry.{tm_rules, tm_header, tm_trailer};

use headers::wide;
use octets::octet_at;

// The octets of the primary header.
const PRIMARY: usize = 6;

#[derive(Clone, Copy)]
pub struct Tm;

impl Tm {
    // Version is 0; of a secondary header, if there is one, version is 0 and the length field is not.
    pub fn keeps_rules(frame: &[u8]) -> bool
        ensures { result ≡ tm_rules frame.now }
    {
        let secondary = octet_at(frame, 6);
        let kept = (secondary / 64 == 0) & (0 < secondary % 64);
        (octet_at(frame, 0) / 64 == 0) & ((octet_at(frame, 4) / 128 == 0) | kept)
    }

    // The octets of both headers: the length field of the secondary header counts its own less one.
    pub fn header_length(frame: &[u8]) -> usize
        ensures { result ≡ tm_header frame.now }
    {
        if octet_at(frame, 4) / 128 == 0 {
            return PRIMARY;
        }
        PRIMARY + (octet_at(frame, 6) % 64) as usize + 1
    }

    // The octets of the operational control field: none where the OCF flag is 0.
    pub fn trailer_length(frame: &[u8]) -> usize
        ensures { result ≡ tm_trailer frame.now }
    {
        if octet_at(frame, 1) % 2 == 1 { 4 } else { 0 }
    }

    pub fn spacecraft(frame: &[u8]) -> u16
        ensures { result ≡ tm_spacecraft frame.now }
    {
        wide(octet_at(frame, 0) % 64) * 16 + wide(octet_at(frame, 1) / 16)
    }

    pub fn channel(frame: &[u8]) -> u8
        ensures { result ≡ tm_channel frame.now }
    {
        octet_at(frame, 1) / 2 % 8
    }
}
