// What the caller says: the desk that makes the call (document 02, request 10), the number that names the kind of its frame, and whether a
// check field ends the frame (request 4).
ghost use Rattle.std.specs.Prelude.{◌≡◌};
ghost use Rattle.judging.specs.Said.{no_desk};

use bodies::LAST_DESK;

#[derive(Clone, Copy)]
pub struct Said {
    pub desk: u8,
    pub kind: u8,
    pub field: bool,
}

// A number behind the last desk's.
pub fn no_desk(desk: u8) -> bool
    ensures { result ≡ no_desk desk }
{
    LAST_DESK < desk
}
