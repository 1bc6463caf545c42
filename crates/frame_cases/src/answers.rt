// What the crate `frame` answers on a case.
use kinds::{Framing, Kind};
use lines::front;
use std::{fmt, io};

// What a line says of a case, beside the frame's octets and the mask's.
#[derive(Clone, Copy)]
pub(crate) struct Case {
    pub kind: u8,
    pub is_secured: bool,
    pub field: bool,
    pub security: u8,
    pub reach: u8,
    pub length: usize,
}

fn print<T: fmt::Display + Drop>(rt: &impl Print, value: T) -> io::Result<()> {
    print!(rt; " {value}")
}

fn print_each(rt: &impl Print, octets: &[u8]) -> io::Result<()> {
    for octet in octets {
        print(rt, *octet)?;
    }
    Ok(())
}

fn print_kind(rt: &impl Print, kind: Kind, frame: &[u8]) -> io::Result<()> {
    print(rt, kind.header_length(frame))?;
    print(rt, kind.largest())?;
    print(rt, kind.spacecraft(frame))?;
    print(rt, kind.channel(frame))?;
    print(rt, kind.map(frame))?;
    print(rt, kind.most_spacecraft())?;
    print(rt, kind.most_channel())?;
    print(rt, kind.most_map())
}

fn print_parts(rt: &impl Print, framing: Framing, security: u8, frame: &[u8]) -> io::Result<()> {
    print(rt, framing.trailer_length(frame))?;
    let clear = frame::clear_parts(framing, frame);
    print(rt, clear.header)?;
    print(rt, clear.content)?;
    print(rt, clear.control)?;
    let secured = frame::secured_parts(framing, security, frame);
    print(rt, secured.header)?;
    print(rt, secured.security)?;
    print(rt, secured.content)?;
    print(rt, secured.mac)?;
    print(rt, frame::secured_length(security, frame))?;
    print(rt, u8::from(frame::exceeds(framing, security, frame)))?;
    print(rt, u8::from(frame::too_short(framing, security, frame)))?;
    print(rt, u8::from(frame::field_ok(framing, frame)))
}

// The header under the mask, in an output whose octets are 165 before, so that those behind the header are seen to stay.
fn print_masked(rt: &impl Print, framing: Framing, mask: &[u8], frame: &[u8]) -> io::Result<()> {
    let mut out = [165u8; 8];
    if let Some(count) = masking::mask_header(framing, mask, frame, &mut out) {
        print(rt, count)?;
    }
    print_each(rt, &out)
}

fn rewrite_front(
    rt: &impl Print,
    kind: Kind,
    s: &mut [u8],
    n: usize,
    longer: usize,
) -> io::Result<()> {
    if n <= s.len() {
        print(rt, u8::from(kind.rewrite_length(&mut s[..n], longer)))?;
    }
    Ok(())
}

fn print_named(
    rt: &impl Print,
    kind: Kind,
    case: Case,
    mask: &[u8],
    whole: &mut [u8],
) -> io::Result<()> {
    let n = case.length;
    let security = case.security;
    let framing = Framing {
        kind,
        field: case.field,
    };
    print_kind(rt, kind, front(whole, n))?;
    print_parts(rt, framing, security, front(whole, n))?;
    print_masked(
        rt,
        framing,
        front(mask, case.reach as usize),
        front(whole, n),
    )?;
    let longer = frame::secured_length(security, front(whole, n));
    rewrite_front(rt, kind, whole, n, longer)?;
    print_each(rt, front(whole, 8))
}

// The frame is the first octets of `whole`, as many as the case says.
pub(crate) fn print_answers(
    rt: &impl Print,
    case: Case,
    mask: &[u8],
    whole: &mut [u8],
) -> io::Result<()> {
    let number = case.kind;
    print!(rt; "{number}")?;
    let obeys = frame::obeys(
        case.kind,
        case.field,
        front(whole, case.length),
        case.is_secured,
    );
    print(rt, u8::from(obeys))?;
    let Some(kind) = kinds::kind_of(case.kind) else {
        return Ok(());
    };
    print_named(rt, kind, case, mask, whole)
}
