// Document 02, request 4: the check field at the end of a frame.
ghost use Rattle.std.specs.Prelude.{◌≡◌};
ghost use Rattle.kinds.specs.Kinds.{framed};
ghost use Rattle.frame.specs.Closing.{field_ok};

use check_field::right_field;
use kinds::Framing;

// Answer 12, if not. The field is computed only where there is one.
pub fn field_ok(framing: Framing, frame: &[u8]) -> bool
    ensures { result ≡ field_ok (framed framing) frame.now }
{
    if framing.field {
        return right_field(frame);
    }
    true
}
