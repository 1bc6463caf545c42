// Document 02, request 1: the header of an AOS frame (CCSDS 732.0).
#![tactic(auto)]

ghost use Rattle.std.specs.Prelude.{◌≡◌};
ghost use Rattle.headers.specs.Aos.{aos_rules};
ghost use Rattle.headers.specs.Fields.{aos_spacecraft, aos_channel};

use headers::wide;
use octets::octet_at;

#[derive(Clone, Copy)]
pub struct Aos;

impl Aos {
    // Version is 01.
    pub fn keeps_rules(frame: &[u8]) -> bool
        ensures { result ≡ aos_rules frame.now }
    {
        octet_at(frame, 0) / 64 == 1
    }

    pub fn spacecraft(frame: &[u8]) -> u16
        ensures { result ≡ aos_spacecraft frame.now }
    {
        wide(octet_at(frame, 0) % 64) * 4 + wide(octet_at(frame, 1) / 64)
    }

    pub fn channel(frame: &[u8]) -> u8
        ensures { result ≡ aos_channel frame.now }
    {
        octet_at(frame, 1) % 64
    }
}
