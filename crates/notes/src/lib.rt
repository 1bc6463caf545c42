// Document 02, request 11: the caller's notes, the frame security reports of the desks and the event log, as a check or a command leaves them
// once it has its answer. Reports and counts go in by value and come back by value; the log's events lie in a list that is lent.
#![tactic(auto)]

ghost use Rattle.std.specs.Prelude.{◌≡◌};
ghost use Rattle.event_log.specs.Held.{lent_log};
ghost use Rattle.notes.specs.Noting.{fresh_notes, lent_notes, noted_check, reset_by, logged_by, noted_command};

use event_log::Log;
use reports::Reports;

// The tags of the commands that do more than enter an event.
pub const DUMP: u8 = 0x33;

pub const ERASE: u8 = 0x34;

pub const ALARM_RESET: u8 = 0x37;

// A caller who lends them has them laid out as C does: the layout leaves no gap between the fields.
#[repr(C)]
#[derive(Clone, Copy)]
pub struct Notes {
    pub reports: Reports,
    pub log: Log,
}

impl Notes {
    pub fn fresh() -> Self
        ensures { result ≡ fresh_notes }
    {
        Self {
            reports: Reports::fresh(),
            log: Log::fresh(),
        }
    }

    // After a check by a desk: `spi` is the frame's, and `number` the low octet of the number of the entry that it matched.
    pub fn after_check(self, events: &mut [u8], desk: u8, answer: u8, spi: u16, number: u8) -> Self
        ensures { lent_notes result events.new ≡ noted_check (lent_notes self events.old) desk answer spi number }
    {
        let reports = self.reports;
        let log = self.log;
        Self {
            reports: reports.after_check(desk, answer, spi, number),
            log: log.entered(events, desk, 0, answer),
        }
    }

    // After a command whose first octet is `tag`, 0 where it has none.
    pub fn after_command(self, events: &mut [u8], desk: u8, tag: u8, answer: u8) -> Self
        ensures { lent_notes result events.new ≡ noted_command (lent_notes self events.old) desk tag answer }
    {
        let reports = self.reports;
        let log = self.log;
        Self {
            reports: reset_by(reports, desk, tag, answer),
            log: logged(log, events, desk, tag, answer),
        }
    }
}

// The log after a command.
fn logged(log: Log, events: &mut [u8], desk: u8, tag: u8, answer: u8) -> Log
    ensures { lent_log result events.new ≡ logged_by (lent_log log events.old) desk tag answer }
{
    if (tag == DUMP) | (tag == ERASE) {
        if (tag == ERASE) & (answer == 0) {
            return Log::fresh();
        }
        return log;
    }
    log.entered(events, desk, tag, answer)
}

// The reports after a command.
fn reset_by(reports: Reports, desk: u8, tag: u8, answer: u8) -> Reports
    ensures { result.octets ≡ reset_by reports.octets desk tag answer }
{
    if (tag == ALARM_RESET) & (answer == 0) {
        return reports.after_reset(desk);
    }
    reports
}
