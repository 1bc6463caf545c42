// Document 01, 'What comes back', and document 02, requests 4, 5, 9 and 10: a call is done or refused. Each refusal has its number in the
// papers' table; answer 0 is that of a call that is done.
ghost use Rattle.std.specs.Prelude.{◌≡◌};
ghost use Rattle.judging.specs.Answers.{reported, number_of, refusal_of};

use numbers::Unfit;

// What a call that is done tells: the length of the result and the count of stores.
#[derive(Clone, Copy)]
pub struct Done {
    pub length: usize,
    pub stores: u32,
}

// The papers have no refusal 9.
#[derive(Clone, Copy)]
pub enum Refusal {
    BadImage = 1,
    BadMarks = 2,
    BadFrame = 3,
    NoEntry = 4,
    TooShort = 5,
    NoRoom = 6,
    WrongMac = 7,
    OutsideWindow = 8,
    NumbersSpent = 10,
    TooLong = 11,
    WrongCheckField = 12,
    BadCommand = 13,
    UnknownSpi = 14,
    WrongState = 15,
    BadValue = 16,
    UnknownKey = 17,
    WrongKeyState = 18,
    WrongDesk = 19,
}

impl Refusal {
    // The number in the papers' table.
    pub fn number(self) -> u8
        ensures { result ≡ number_of self }
    {
        self as u8
    }
}

impl From<Unfit> for Refusal {
    ghost from_gives = { λ u r. r ≡ refusal_of u };

    fn from(unfit: Unfit) -> Refusal {
        match unfit {
            Unfit::BadImage => Refusal::BadImage,
            Unfit::BadMarks => Refusal::BadMarks,
        }
    }
}

pub type Answer = Result<Done, Refusal>;

// What a call reports: the number of its answer in the papers' table, the length of the result and the count of stores.
#[derive(Clone, Copy)]
pub struct Reported {
    pub number: u8,
    pub length: usize,
    pub stores: u32,
}

pub fn report_of(answer: Answer) -> Reported
    ensures { result ≡ reported answer }
{
    match answer {
        Ok(done) => Reported {
            number: 0,
            length: done.length,
            stores: done.stores,
        },
        Err(refusal) => Reported {
            number: refusal.number(),
            length: 0,
            stores: 0,
        },
    }
}
