// Document 01, 'What comes back': a clear frame under the entry that matches, 11, 6 and 10 in the paper's order.
ghost use Rattle.kinds.specs.Kinds.{framed};
ghost use Rattle.judging.specs.Verdicts.{Judged, sending_judged};

use association::Held;
use frame::{exceeds, secured_length};
use judging::{Grant, Refusal};
use kinds::Framing;
use numbers::plan_for;
use security_header::security_length;

const GREATEST: u32 = 4294967295;

// Whether a frame is secured, under what its association holds and after the last number used. Nothing is changed.
pub fn judge_sending(
    image: &[u8],
    entry: u8,
    held: Held,
    last: u32,
    framing: Framing,
    frame: &[u8],
    room: usize,
) -> Result<Grant, Refusal>
    ensures { Judged result (sending_judged image.now entry held last (framed framing) frame.now room) }
{
    let security = security_length(held.service);
    let size = secured_length(security, frame);
    if exceeds(framing, security, frame) {
        return Err(Refusal::TooLong);
    }
    if room < size {
        return Err(Refusal::NoRoom);
    }
    if last == GREATEST {
        return Err(Refusal::NumbersSpent);
    }
    let number = last + 1;
    Ok(Grant {
        entry,
        number,
        plan: plan_for(image, entry, number),
        size,
    })
}
