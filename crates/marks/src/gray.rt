// Document 01, 'The image': a mark is stored as its reflected Gray code.
ghost use Rattle.std.specs.Prelude.{◌≡◌};
ghost use Rattle.marks.specs.Gray.{gray, ungray};

pub fn gray_of(m: u32) -> u32
    ensures { result ≡ gray m }
{
    m ^ (m / 2)
}

// The mark of a code: each step takes in twice as many binary digits of the code as the one before.
pub fn mark_of(code: u32) -> u32
    ensures { result ≡ ungray code }
{
    let by_two = code ^ (code >> 1);
    let by_four = by_two ^ (by_two >> 2);
    let by_eight = by_four ^ (by_four >> 4);
    let by_sixteen = by_eight ^ (by_eight >> 8);
    by_sixteen ^ (by_sixteen >> 16)
}
