// One report, its flags apart.
ghost use Rattle.std.specs.Prelude.{◌≡◌, ◌≤◌};
ghost use Rattle.reports.specs.Report.{flag, first_octet, number_told, renewing, resetting};
ghost use Rattle.reports.specs.Report.{odd as Report·odd, unread as Report·unread};

// What was bad about the last frame.
#[derive(Clone, Copy)]
pub struct Bad {
    pub number: bool,
    pub mac: bool,
    pub association: bool,
}

#[derive(Clone, Copy)]
pub struct Report {
    pub alarm: bool,
    pub bad: Bad,
    pub spi: u16,
    pub number: u8,
}

pub(crate) fn odd(n: u8) -> bool
    ensures { result ≡ Report·odd n }
{
    n % 2 == 1
}

fn flag_bit(set: bool) -> u8
    ensures { (result ≡ flag set) × (result ≤ 1) }
{
    if set { 1 } else { 0 }
}

// Answers that are given before the frame's SPI is looked for: only the alarm changes.
fn unread(answer: u8) -> bool
    ensures { result ≡ Report·unread answer }
{
    (answer == 1) | (answer == 2) | (answer == 3) | (answer == 12)
}

// Without a match there is no number to tell.
fn number_told(answer: u8, number: u8) -> u8
    ensures { result ≡ number_told answer number }
{
    if answer == 4 {
        return 0;
    }
    number
}

impl Report {
    pub(crate) fn first_octet(self) -> u8
        ensures { result ≡ first_octet self }
    {
        let alarm = flag_bit(self.alarm);
        let number = flag_bit(self.bad.number);
        let mac = flag_bit(self.bad.mac);
        let association = flag_bit(self.bad.association);
        0xC0 + 8 * alarm + 4 * number + 2 * mac + association
    }

    // After a check with that answer.
    pub(crate) fn renewed(self, answer: u8, spi: u16, number: u8) -> Report
        ensures { result ≡ renewing answer spi number self }
    {
        if unread(answer) {
            let mut next = self;
            next.alarm = true;
            return next;
        }
        Report {
            alarm: self.alarm | !(answer == 0),
            bad: Bad {
                number: answer == 8,
                mac: answer == 7,
                association: answer == 4,
            },
            spi,
            number: number_told(answer, number),
        }
    }

    // After its desk reset the alarm.
    pub(crate) fn reset(self) -> Report
        ensures { result ≡ resetting self }
    {
        let mut next = self;
        next.alarm = false;
        next
    }
}
