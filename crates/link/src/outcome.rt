// Document 01, 'What comes back': what a call returns.
ghost use Rattle.std.specs.Prelude.{◌≡◌, set};
ghost use Rattle.judging.specs.Answers.{reported, granted};
ghost use Rattle.link.specs.Steps.{outcome};

use judging::{Answer, Done, Grant};
use numbers::Numbers;

// The numbers come back by value with every answer, so they stand beside it and not in its `Ok`.
#[derive(Clone, Copy)]
pub struct Outcome {
    pub answer: Answer,
    pub numbers: Numbers,
}

// A refusal returns the numbers as they were handed in.
pub fn refused(answer: Answer, numbers: Numbers) -> Outcome
    ensures { result ≡ outcome answer numbers }
{
    Outcome { answer, numbers }
}

// What is returned once the stores are made and the output is written.
pub fn carried_out(grant: Grant, made: u32, numbers: Numbers) -> Outcome
    ensures { (reported result.answer ≡ granted grant.size made) × (result.numbers.last ≡ set numbers.last grant.entry grant.number) }
{
    Outcome {
        answer: Ok(Done {
            length: grant.size,
            stores: made,
        }),
        numbers: numbers.advance(grant.entry, grant.number),
    }
}
