// Numbers in decimal.
ghost use Rattle.std.specs.Prelude.{◌≡◌};
ghost use Rattle.lines.specs.Decimal.{longer_by, spelled};

// The number with one digit more.
fn longer(n: u64, c: u8) -> Option<u64>
    ensures { result ≡ longer_by n c }
{
    match c {
        b'0'..=b'9' => n.checked_mul(10)?.checked_add(u64::from(c - b'0')),
        _ => None,
    }
}

// The number that a text spells. A text that is empty, has a character that is no digit, or spells more than a u64 holds, spells none.
// `parse` is not this function: it takes a sign before the digits.
pub fn read_number(text: &[u8]) -> Option<u64>
    ensures { result ≡ spelled text.now }
{
    if text.is_empty() {
        return None;
    }
    let mut n = 0;
    for c in text {
        n = longer(n, *c)?;
    }
    Some(n)
}
