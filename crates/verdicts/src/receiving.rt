// Document 01, 'What comes back': a secured frame under the entry that matches, 5, 6, 7 and 8 in the paper's order.
ghost use Rattle.std.specs.Prelude.{◌≡◌, true};
ghost use Rattle.kinds.specs.Kinds.{framed};
ghost use Rattle.frame.specs.Rules.{obeys};
ghost use Rattle.engines.specs.Lent.{Lent};
ghost use Rattle.opening.specs.Steps.{opening_of};
ghost use Rattle.judging.specs.Verdicts.{Judged, receiving_judged};

use crate::window::accepts;
use frame::too_short;
use judging::{Grant, Refusal};
use numbers::plan_for;
use opening::{Opening, clear_length, mac_right, number_of};
use security_header::security_length;

// Whether the data is released, after the last number used. The MAC is judged before the window. Nothing is changed, and nothing decrypted.
pub fn judge_receiving(
    tables: &[u32],
    image: &[u8],
    entry: u8,
    last: u32,
    opening: Opening,
    frame: &[u8],
    room: usize,
) -> Result<Grant, Refusal>
    requires lent { Lent tables.now }
    requires true_value { (obeys (framed opening.framing) frame.now true ≡ true) × (opening ≡ opening_of opening.framing opening.held frame.now) }
    ensures { Judged result (receiving_judged image.now entry opening.held last (framed opening.framing) frame.now room) }
{
    let framing = opening.framing;
    let held = opening.held;
    if too_short(framing, security_length(held.service), frame) {
        return Err(Refusal::TooShort);
    }
    let size = clear_length(opening, frame);
    if room < size {
        return Err(Refusal::NoRoom);
    }
    if !mac_right(tables, opening, frame) {
        return Err(Refusal::WrongMac);
    }
    let sequence = number_of(opening, frame);
    if !accepts(last, held.window, sequence) {
        return Err(Refusal::OutsideWindow);
    }
    let number = sequence.number;
    Ok(Grant {
        entry,
        number,
        plan: plan_for(image, entry, number),
        size,
    })
}
