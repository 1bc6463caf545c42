// Parts of a text: its front, and its fields, each of which a space or a line feed ends.
ghost use Rattle.std.specs.Prelude.{◌≡◌, suc, ◌≤◌, length, take, drop, position};
ghost use Rattle.lines.specs.Fields.{ends_field, field_length, field_of};

// The first n characters, or all of fewer.
pub fn front(text: &[u8], n: usize) -> &[u8]
    ensures { result.now ≡ take n text.now }
{
    text.get(..n).unwrap_or(text)
}

// Where the first field of a text ends, if a character ends it.
fn field_end(text: &[u8]) -> Option<usize>
    ensures { result ≡ position ends_field text.now }
{
    text.iter().position(|c| matches!(*c, b' ' | b'\n'))
}

// How many characters the first field of a text has.
fn field_length(text: &[u8]) -> usize
    ensures upper_bound { result ≤ length text.now }
    ensures value { result ≡ field_length text.now }
{
    field_end(text).unwrap_or(text.len())
}

// The text behind its first field and the character that ends it.
fn behind_field(text: &[u8]) -> &[u8]
    ensures { result.now ≡ drop (suc (field_length text.now)) text.now }
{
    let end = field_length(text);
    text.get(end + 1..).unwrap_or(&[])
}

// Field n of a line, counted from 0. A field that the line lacks is empty.
pub fn field(line: &[u8], n: usize) -> &[u8]
    ensures { result.now ≡ field_of n line.now }
{
    let mut rest = line;
    for _ in 0..n {
        rest = behind_field(rest);
    }
    &rest[..field_length(rest)]
}
