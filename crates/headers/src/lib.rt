// Document 01, 'Frames', and document 02, requests 1 and 6: the headers of TC frames (CCSDS 232.0), TM frames (CCSDS 132.0) and AOS frames
// (CCSDS 732.0). Their fields and the rules on them are defined here; crates `telecommand`, `telemetry` and `aos` read them.
#![tactic(auto)]

ghost use Rattle.std.specs.Prelude.{◌≡◌};

// An octet as a number that a field of several octets is made of.
pub fn wide(x: u8) -> u16
    ensures { result ≡ x }
{
    x as u16
}
