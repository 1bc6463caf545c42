// How the vectors of a file went.
ghost use Rattle.std.specs.Prelude.{◌≡◌, cond, ◌+◌, min};

#[derive(Clone, Copy)]
pub struct Tally {
    pub ran: u64,
    pub differ: u64,
}

impl Tally {
    pub fn none() -> Tally
        ensures { (result.ran ≡ 0) × (result.differ ≡ 0) }
    {
        Tally { ran: 0, differ: 0 }
    }

    // The tally with one vector more. No count goes back to 0.
    pub fn with(self, is_right: bool) -> Tally
        ensures { (result.ran ≡ min (self.ran + 1) 18446744073709551615) × (result.differ ≡ cond is_right self.differ (min (self.differ + 1) 18446744073709551615)) }
    {
        Tally {
            ran: self.ran.saturating_add(1),
            differ: self.differ.saturating_add(u64::from(!is_right)),
        }
    }
}
