// Document 02, requests 5 and 9: a command under the entry that it names, 15, 16, 17, 18 and 6 in the papers' order. Nothing is changed.
#![tactic(auto)]

ghost use Rattle.judging.specs.Verdicts.{Judged};
ghost use Rattle.deciding.specs.Steps.{procedure_judged};

use conditions::{allowed, new_number};
use judging::{Grant, Refusal};
use key_conditions::{key_known, key_ready};
use plans::plan_of;
use procedures::Procedure;
use replies::{reply_size, state_at};

pub fn decide(
    image: &[u8],
    entry: u8,
    last: u32,
    procedure: Procedure,
    value: &[u8],
    room: usize,
) -> Result<Grant, Refusal>
    ensures { Judged result (procedure_judged procedure image.now entry last value.now room) }
{
    if !procedure.asks(state_at(image, entry)) {
        return Err(Refusal::WrongState);
    }
    if !allowed(procedure, image, entry, last, value) {
        return Err(Refusal::BadValue);
    }
    if !key_known(procedure, image, entry, value) {
        return Err(Refusal::UnknownKey);
    }
    if !key_ready(procedure, image, entry, value) {
        return Err(Refusal::WrongKeyState);
    }
    let size = reply_size(procedure, image, value);
    if room < size {
        return Err(Refusal::NoRoom);
    }
    let number = new_number(procedure, last, value);
    Ok(Grant {
        entry,
        number,
        plan: plan_of(procedure, image, entry, number, value),
        size,
    })
}
