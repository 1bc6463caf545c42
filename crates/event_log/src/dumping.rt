// The replies to a dump and to an erase: tag, length field, value.
ghost use Rattle.std.specs.Prelude.{◌≡◌, ◌+◌, ◌*◌, ◌≤◌, ◌∷◌, length};
ghost use Rattle.octets.specs.Numbers.{bytes};
ghost use Rattle.octets.specs.Output.{fronted};
ghost use Rattle.event_log.specs.Events.{event_line, dump_reply, erase_reply};
ghost use Rattle.event_log.specs.Held.{lent_log, event_at, room_for, kept_count, held, lines_behind};

use crate::events::{EVENT, Log, room_for};
use octets::{octet_at, put, put_behind};

// Tag and length field, and the octets of an event in a dump.
const FRONT: usize = 3;

const LINE: usize = 5;

// The octets of the reply to an erase.
pub const ERASE_REPLY: usize = 7;

// How many events are kept: no more than the list has room for.
fn kept_count(kept: u32, events: &[u8]) -> usize
    ensures { (result ≡ kept_count kept events.now) × (result ≤ 256) }
{
    kept.min(room_for(events)) as usize
}

// Tag and length field of a dump of n events.
fn front_of(n: usize) -> [u8; 3]
    requires { n ≤ 256 }
    ensures { result ≡ 0xB3 ∷ bytes 2 (5 * n) }
{
    let [high, low] = ((LINE * n) as u16).to_be_bytes();
    [0xB3, high, low]
}

// An event as a dump tells it.
fn line_at(events: &[u8], i: usize) -> [u8; 5]
    requires { i ≤ 256 }
    ensures { result ≡ event_line (event_at events.now i) }
{
    let at = EVENT * i;
    let desk = octet_at(events, at);
    let tag = octet_at(events, at + 1);
    let answer = octet_at(events, at + 2);
    [tag, 0, 2, desk, answer]
}

// The first n events behind tag and length field, in their order.
fn put_lines(events: &[u8], n: usize, output: &mut [u8])
    requires { (n ≤ 256) × (3 + 5 * n ≤ length output.old) }
    ensures { output.new ≡ lines_behind output.old events.now n }
{
    for i in 0..n {
        put_behind(&line_at(events, i), FRONT + LINE * i, output);
    }
}

// The octets of the reply to a dump.
pub fn dump_size(log: Log, events: &[u8]) -> usize
    ensures { result ≡ length (dump_reply (held (lent_log log events.now)).kept) }
{
    FRONT + LINE * kept_count(log.kept, events)
}

// The reply to a dump to the front of the output, whose rest stays; where there is no room for it, nothing is written.
pub fn write_dump(log: Log, events: &[u8], output: &mut [u8])
    ensures { output.new ≡ fronted (dump_reply (held (lent_log log events.now)).kept) output.old }
{
    let n = kept_count(log.kept, events);
    if FRONT + LINE * n <= output.len() {
        put(&front_of(n), output);
        put_lines(events, n, output);
    }
}

// The reply to an erase likewise: no events, and the room for more in octets.
pub fn write_erase_reply(events: &[u8], output: &mut [u8])
    ensures { output.new ≡ fronted (erase_reply (room_for events.now)) output.old }
{
    let free = EVENT * (room_for(events) as usize);
    let [high, low] = (free as u16).to_be_bytes();
    let reply: [u8; ERASE_REPLY] = [0xB4, 0, 4, 0, 0, high, low];
    put(&reply, output);
}
