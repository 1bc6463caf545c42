// Document 01, 'Frames', and document 02, request 9: the security header, and the sequence number in it.
ghost use Rattle.std.specs.Prelude.{◌≡◌, ◌++◌, ◌+◌, ◌-◌, ◌*◌, ◌≤◌, drop, replicate};
ghost use Rattle.octets.specs.Numbers.{number_at, bytes};
ghost use Rattle.services.specs.Services.{service};
ghost use Rattle.services.specs.SecurityHeader.{field_under, number_under};

use octets::four_at;

// A number of 96 bits: `above` counts the whole multiples of 2^32 in it.
#[derive(Clone, Copy)]
pub struct Sequence {
    pub above: u64,
    pub number: u32,
}

// The octets of a security header: SPI and field.
pub fn security_length(number: u8) -> u8
    ensures { (result ≡ 2 + (service number).field) × (6 ≤ result) × (result ≤ 14) }
{
    if number == 2 { 14 } else { 6 }
}

// The security header of an SPI and a number, and zeros behind it. It fills as many of the octets as the service asks for; the number is in
// the last four of those, which under service 1 are the same octets that under service 2 name the association: it is stored last.
pub fn security_header(number: u8, naming: u16, spi: u16, n: u32) -> [u8; 14]
    ensures { result ≡ (bytes 2 spi ++ field_under (service number) naming n) ++ replicate (12 - (service number).field) 0 }
{
    let mut header: [u8; 14] = [0; 14];
    let at = security_length(number) as usize - 4;
    header[..2].copy_from_slice(&spi.to_be_bytes());
    header[4..6].copy_from_slice(&naming.to_be_bytes());
    header[at..at + 4].copy_from_slice(&n.to_be_bytes());
    header
}

fn join(first: u32, second: u32, third: u32) -> Sequence
    ensures { result.above * 4294967296 + result.number ≡ (first * 4294967296 + second) * 4294967296 + third }
{
    Sequence {
        above: (first as u64) * 4294967296 + (second as u64),
        number: third,
    }
}

// The number of twelve octets behind the first two.
pub fn long_number(security: &[u8]) -> Sequence
    ensures { result.above * 4294967296 + result.number ≡ number_at 2 12 security.now }
{
    join(
        four_at(security, 2),
        four_at(security, 6),
        four_at(security, 10),
    )
}

// The number in a security header; 0, which no window takes, where it names another association.
pub fn number_in(number: u8, naming: u16, security: &[u8]) -> Sequence
    ensures { result.above * 4294967296 + result.number ≡ number_under (service number) naming (drop 2 security.now) }
{
    let first = four_at(security, 2);
    if number == 2 {
        if first == naming as u32 {
            return join(0, four_at(security, 6), four_at(security, 10));
        }
        return join(0, 0, 0);
    }
    join(0, 0, first)
}
