// What a call reports, in one number: bits 0 to 31 hold the length, 32 to 39 the stores, and 40 to 47 the answer's number of the paper's table.
ghost use Rattle.std.specs.Prelude.{◌≡◌};
ghost use Rattle.judging.specs.Answers.{reported};
ghost use Rattle.lent.specs.Word.{word};

use judging::{Answer, report_of};

pub fn word(number: u8, length: usize, stores: u32) -> u64
    ensures { result ≡ word number length stores }
{
    (number as u64) * 1099511627776
        + (stores as u64) % 256 * 4294967296
        + (length as u64) % 4294967296
}

pub(crate) fn pack(answer: Answer) -> u64
    ensures { result ≡ word (reported answer).number (reported answer).length (reported answer).stores }
{
    let told = report_of(answer);
    word(told.number, told.length, told.stores)
}
