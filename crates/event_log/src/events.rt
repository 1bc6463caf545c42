// The log: its counts by value, and beside them the octets of its events, which the caller lends.
ghost use Rattle.std.specs.Prelude.{◌≡◌, ◌+◌, ◌*◌, ◌≤◌, length};
ghost use Rattle.event_log.specs.Held.{lent_log, room_for, event_put, entered_in, event, fresh_log};

// The octets of an event, and the most events.
pub(crate) const EVENT: usize = 3;

const MOST_EVENTS: usize = 256;

// How many events are kept, and how many were dropped. A caller who lends one has it laid out as C does.
#[repr(C)]
#[derive(Clone, Copy)]
pub struct Log {
    pub kept: u32,
    pub dropped: u32,
}

// How many events a list has room for.
pub(crate) fn room_for(events: &[u8]) -> u32
    ensures { (result ≡ room_for events.now) × (result ≤ 256) × (3 * result ≤ length events.now) }
{
    (events.len() / EVENT).min(MOST_EVENTS) as u32
}

// An event's three octets at a place.
fn put_event(events: &mut [u8], at: usize, desk: u8, tag: u8, answer: u8)
    requires { at + 3 ≤ length events.old }
    ensures { events.new ≡ event_put events.old at (event desk tag answer) }
{
    events[at] = desk;
    events[at + 1] = tag;
    events[at + 2] = answer;
}

impl Log {
    pub fn fresh() -> Self
        ensures { result ≡ fresh_log }
    {
        Self {
            kept: 0,
            dropped: 0,
        }
    }

    // With one event more, or one more dropped: their count stays at the greatest that it may be.
    pub fn entered(self, events: &mut [u8], desk: u8, tag: u8, answer: u8) -> Self
        ensures { lent_log result events.new ≡ entered_in (lent_log self events.old) (event desk tag answer) }
    {
        let kept = self.kept;
        let dropped = self.dropped;
        if kept < room_for(events) {
            put_event(events, EVENT * (kept as usize), desk, tag, answer);
            return Self {
                kept: kept + 1,
                dropped,
            };
        }
        Self {
            kept,
            dropped: dropped.saturating_add(1),
        }
    }
}
