// Document 01, 'Frames' and 'What comes back', answers 5 and 11: where the parts of a frame lie. `security` is the length of the security
// header, 6 or 14.
ghost use Rattle.std.specs.Prelude.{◌≡◌};
ghost use Rattle.kinds.specs.Kinds.{framed};
ghost use Rattle.frame.specs.Parts.{clear_parts, secured_parts, secured_length, exceeds, too_short};

use kinds::Framing;

const MAC: usize = 16;

// Where header, content, the data, and operational control field end. Each part begins where the one before it ends, the first at 0, and a
// check field ends with the frame.
#[derive(Clone, Copy)]
pub struct ClearParts {
    pub header: usize,
    pub content: usize,
    pub control: usize,
}

// Where header, security header, content and MAC end.
#[derive(Clone, Copy)]
pub struct SecuredParts {
    pub header: usize,
    pub security: usize,
    pub content: usize,
    pub mac: usize,
}

pub fn clear_parts(framing: Framing, frame: &[u8]) -> ClearParts
    ensures { result ≡ clear_parts (framed framing) frame.now }
{
    let kind = framing.kind;
    ClearParts {
        header: kind.header_length(frame),
        content: frame.len().saturating_sub(framing.trailer_length(frame)),
        control: frame.len().saturating_sub(framing.field_length()),
    }
}

pub fn secured_parts(framing: Framing, security: u8, frame: &[u8]) -> SecuredParts
    ensures { result ≡ secured_parts (framed framing) security frame.now }
{
    let kind = framing.kind;
    let header = kind.header_length(frame);
    let mac = frame.len().saturating_sub(framing.trailer_length(frame));
    SecuredParts {
        header,
        security: header + security as usize,
        content: mac.saturating_sub(MAC),
        mac,
    }
}

// The octets of a clear frame once it is secured.
pub fn secured_length(security: u8, clear: &[u8]) -> usize
    ensures { result ≡ secured_length security clear.now }
{
    clear.len() + security as usize + MAC
}

// Answer 11: the secured frame would exceed the largest of its kind.
pub fn exceeds(framing: Framing, security: u8, clear: &[u8]) -> bool
    ensures { result ≡ exceeds (framed framing) security clear.now }
{
    let kind = framing.kind;
    kind.largest() < secured_length(security, clear)
}

// Answer 5: a secured frame with no room for its parts and one octet of data.
pub fn too_short(framing: Framing, security: u8, frame: &[u8]) -> bool
    ensures { result ≡ too_short (framed framing) security frame.now }
{
    let kind = framing.kind;
    let header = kind.header_length(frame);
    let trailer = framing.trailer_length(frame);
    frame.len() < header + security as usize + 1 + MAC + trailer
}
