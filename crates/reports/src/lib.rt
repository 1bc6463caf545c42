// Document 02, request 11: the frame security reports, one for each of the desks 0, 1 and 2, renewed at each check. A report has four octets, as
// CCSDS 355.1-B-1 lays them out. The three go in by value and come back by value; whatever their octets hold is read as reports.
#![tactic(auto)]

mod report;

ghost use Rattle.std.specs.Prelude.{◌≡◌};
ghost use Rattle.reports.specs.Desks.{fresh_reports, desk_report, with_report, after_check, after_reset};

use octets::{octet_at, two_at};
use report::{Bad, Report, odd};

// The desks that have a report, and the octets of one.
const DESKS: u8 = 3;

const REPORT: usize = 4;

// The reports of the desks, one behind the other. A caller who lends them has them laid out as C does.
#[repr(C)]
#[derive(Clone, Copy)]
pub struct Reports {
    pub octets: [u8; 12],
}

// The report of a desk; where there is none, its octets are read as 0.
fn desk_report(octets: &[u8], desk: u8) -> Report
    ensures { result ≡ desk_report octets.now desk }
{
    let at = REPORT * (desk as usize);
    let first = octet_at(octets, at);
    Report {
        alarm: odd(first / 8),
        bad: Bad {
            number: odd(first / 4),
            mac: odd(first / 2),
            association: odd(first),
        },
        spi: two_at(octets, at + 1),
        number: octet_at(octets, at + 3),
    }
}

impl Reports {
    pub fn fresh() -> Self
        ensures { result.octets ≡ fresh_reports }
    {
        Self {
            octets: *b"\xC0\x00\x00\x00\xC0\x00\x00\x00\xC0\x00\x00\x00",
        }
    }

    // A report in place of a desk's. The others stay, and all stay where there is no such desk.
    fn with(self, desk: u8, report: Report) -> Self
        ensures { result.octets ≡ with_report self.octets desk report }
    {
        if desk < DESKS {
            let at = REPORT * (desk as usize);
            let [high, low] = report.spi.to_be_bytes();
            let mut next = self;
            next.octets[at] = report.first_octet();
            next.octets[at + 1] = high;
            next.octets[at + 2] = low;
            next.octets[at + 3] = report.number;
            return next;
        }
        self
    }

    // After a check by a desk: `spi` is the frame's, and `number` the low octet of the number of the entry that it matched.
    pub fn after_check(self, desk: u8, answer: u8, spi: u16, number: u8) -> Self
        ensures { result.octets ≡ after_check self.octets desk answer spi number }
    {
        let octets = self.octets;
        let report = desk_report(&octets, desk);
        self.with(desk, report.renewed(answer, spi, number))
    }

    // After a desk reset its alarm.
    pub fn after_reset(self, desk: u8) -> Self
        ensures { result.octets ≡ after_reset self.octets desk }
    {
        let octets = self.octets;
        let report = desk_report(&octets, desk);
        self.with(desk, report.reset())
    }
}
