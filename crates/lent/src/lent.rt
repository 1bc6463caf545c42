// Document 01, 'Managed numbers': the 32 numbers, between the list that the caller lends and the value that the module works on.
ghost use Rattle.std.specs.Prelude.{◌≡◌, cond, length};
ghost use Rattle.image.specs.Image.{valid_image};
ghost use Rattle.judging.specs.Answers.{reported};
ghost use Rattle.lent.specs.Word.{word};

use crate::packing::pack;
use image::image_ok;
use link::Outcome;
use numbers::Numbers;

pub fn numbers_in(lent: &[u32]) -> Numbers
    requires { length lent.now ≡ 32 }
    ensures { result.last ≡ lent.now }
{
    let mut last: [u32; 32] = [0; 32];
    last.copy_from_slice(lent);
    Numbers { last }
}

// Only a number that differs is stored, so a refused call, which hands the numbers back as they were, writes none.
fn hand_back(numbers: Numbers, lent: &mut [u32])
    requires { length lent.old ≡ 32 }
    ensures { lent.new ≡ numbers.last }
{
    let last = numbers.last;
    for i in 0..32 {
        if lent[i] != last[i] {
            lent[i] = last[i];
        }
    }
}

// What a call that was made returns: the numbers go back to their list, and the answer into one number.
pub fn returned(outcome: Outcome, lent: &mut [u32]) -> u64
    requires { length lent.old ≡ 32 }
    ensures { (result ≡ word (reported outcome.answer).number (reported outcome.answer).length (reported outcome.answer).stores) × (lent.new ≡ outcome.numbers.last) }
{
    let answer = outcome.answer;
    hand_back(outcome.numbers, lent);
    pack(answer)
}

// Two numbers of document 01's table, 'What comes back'.
const BAD_IMAGE: u8 = 1;

const BAD_MARKS: u8 = 2;

// The number of the answer where the numbers are not 32: they agree with no image.
pub fn count_answer(image: &[u8]) -> u8
    ensures { result ≡ cond (valid_image image.now) 2 1 }
{
    if image_ok(image) {
        return BAD_MARKS;
    }
    BAD_IMAGE
}
