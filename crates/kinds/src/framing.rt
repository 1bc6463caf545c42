// Document 02, request 4: a kind, and the caller's word whether frames end in a check field. What asks for neither f nor the rules asks the
// kind alone.
ghost use Rattle.std.specs.Prelude.{◌≡◌};
ghost use Rattle.kinds.specs.Kinds.{check_field_length, framed};

use crate::kinds::Kind;

#[derive(Clone, Copy)]
pub struct Framing {
    pub kind: Kind,
    pub field: bool,
}

impl Framing {
    // The octets of the check field.
    pub fn field_length(self) -> usize
        ensures { result ≡ check_field_length self.field }
    {
        if self.field { 2 } else { 0 }
    }

    // f of the paper, the check field counted in.
    pub fn trailer_length(self, frame: &[u8]) -> usize
        ensures { result ≡ (framed self).trailer frame.now }
    {
        let kind = self.kind;
        kind.trailer_length(frame) + self.field_length()
    }

    // The rules on the bits of the header, none of which is kept where a field stands that may not.
    pub fn keeps_rules(self, frame: &[u8]) -> bool
        ensures { result ≡ (framed self).rules frame.now }
    {
        let kind = self.kind;
        kind.keeps_rules(frame) & (!self.field | kind.may_end_in_field())
    }
}
