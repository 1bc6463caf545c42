// Eight octets at a time, with no table. G(x)^16 = x^256 + x^192 + x^80 + 1 is a multiple of G(x), so a register of 256 bits that is shifted by
// it agrees with the register of 16 bits modulo G(x); and a shift of it by a word of 64 bits is four sums, none of which waits for another.
ghost use Rattle.std.specs.Prelude.{◌≡◌, ◌+◌, ◌*◌, ◌/◌, ◌≤◌, length};
ghost use Rattle.octets.specs.Lists.{IsTable};
ghost use Rattle.octets.specs.Numbers.{number_at};
ghost use Rattle.check_field.specs.CheckField.{check_field_of};
ghost use Rattle.check_field.specs.Register.{after_bits, shifted_octet};
ghost use Rattle.check_field.specs.Words.{narrow};

use crate::table::enter;

// The last word of a message's start, the others being 0: sixteen shifts make the preset of it.
const START: u64 = 0x84cf;

// The first word has the highest powers.
#[derive(Clone, Copy)]
pub(crate) struct WideRegister {
    pub first: u64,
    pub second: u64,
    pub third: u64,
    pub fourth: u64,
}

// A word enters behind the last. The first leaves by x^256 and comes back by x^192, by x^80, 16 bits more than a word, and by 1.
fn enter_wide(register: WideRegister, word: u64) -> WideRegister
    ensures { narrow result ≡ after_bits 64 (narrow register) word }
{
    let top = register.first;
    WideRegister {
        first: top ^ register.second,
        second: (top >> 48) ^ register.third,
        third: (top << 16) ^ register.fourth,
        fourth: top ^ word,
    }
}

// The number that the eight octets at a place make. No place is tested, so that a processor may read them at once. They are joined by fours:
// of eight at once the compiler makes no load that is wider than an octet.
fn eight_octets(octets: &[u8], at: usize) -> u64
    requires { at + 8 ≤ length octets.now }
    ensures { result ≡ number_at at 8 octets.now }
{
    let high = u32::from_be_bytes([octets[at], octets[at + 1], octets[at + 2], octets[at + 3]]);
    let low = u32::from_be_bytes([
        octets[at + 4],
        octets[at + 5],
        octets[at + 6],
        octets[at + 7],
    ]);
    high as u64 * 0x1_0000_0000 + low as u64
}

// The whole words of a message.
pub(crate) fn enter_words(octets: &[u8]) -> WideRegister
    ensures { narrow result ≡ check_field_of (length octets.now / 8 * 8) octets.now }
{
    let mut register = WideRegister {
        first: 0,
        second: 0,
        third: 0,
        fourth: START,
    };
    for words in 0..octets.len() / 8 {
        register = enter_wide(register, eight_octets(octets, words * 8));
    }
    register
}

// x^64 · first + second, in one word: what is left by G(x)^4 = x^64 + x^48 + x^20 + 1, a multiple of G(x) too.
fn folded(first: u64, second: u64) -> u64
    ensures { after_bits 64 0 result ≡ after_bits 64 (after_bits 64 0 first) second }
{
    let pair = first ^ (first >> 16);
    let quotient = pair ^ (pair >> 32) ^ (first >> 44);
    (quotient << 48) ^ (quotient << 20) ^ quotient ^ second
}

// The eight octets of a word enter a register of zeros.
fn enter_word(table: &[u16; 256], word: u64) -> u16
    requires { IsTable 256 shifted_octet table.now }
    ensures { result ≡ after_bits 64 0 word }
{
    let mut register: u16 = 0;
    for octet in word.to_be_bytes() {
        register = enter(table, register, octet);
    }
    register
}

// The 16 bits that four words stand for.
pub(crate) fn narrowed(table: &[u16; 256], register: WideRegister) -> u16
    requires { IsTable 256 shifted_octet table.now }
    ensures { result ≡ narrow register }
{
    let second = folded(register.first, register.second);
    let third = folded(second, register.third);
    enter_word(table, folded(third, register.fourth))
}
