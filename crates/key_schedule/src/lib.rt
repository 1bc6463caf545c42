// FIPS 197, 5.2: KeyExpansion, figure 11 with Nk = 8. Word i of the expanded key w is its octets 4i to 4i + 3. The expansion of a key serves any
// number of blocks.
#![tactic(auto)]

ghost use Rattle.std.specs.Prelude.{◌≡◌, ◌-◌, ◌/◌, ◌≤◌, ◌<◌, take};
ghost use Rattle.octets.specs.Lists.{IsTable};
ghost use Rattle.substitution.specs.Sbox.{sbox};
ghost use Rattle.key_schedule.specs.KeyExpansion.{word, sub_word, rot_word, round_constant, temp, next_word, key_expansion};

use octets::xors;
use substitution::{substituted, substitution_table, times_x};

fn word_at(w: &[u8; 240], i: usize) -> [u8; 4]
    requires { i < 60 }
    ensures { result ≡ word w.now i }
{
    let at = 4 * i;
    [w[at], w[at + 1], w[at + 2], w[at + 3]]
}

fn sub_word(table: &[u8; 256], a: [u8; 4]) -> [u8; 4]
    requires { IsTable 256 sbox table.now }
    ensures { result ≡ sub_word a }
{
    a.map(|b| substituted(table, b))
}

fn rot_word(a: [u8; 4]) -> [u8; 4]
    ensures { result ≡ rot_word a }
{
    [a[1], a[2], a[3], a[0]]
}

// The first octet of the round constant that comes next after word i, from what came next before it: where word i took that, the next is made from
// it by doubling.
fn constant_after(constant: u8, i: usize) -> u8
    requires le_i { 8 ≤ i }
    requires constant_value { constant ≡ round_constant ((i - 1) / 8) }
    ensures { result ≡ round_constant (i / 8) }
{
    if i % 8 != 0 {
        return constant;
    }
    times_x(constant)
}

// What word i takes besides word i - 8. The constant is the first octet of the round constant that comes next.
fn temporary(table: &[u8; 256], w: &[u8; 240], constant: u8, i: usize) -> [u8; 4]
    requires table { IsTable 256 sbox table.now }
    requires le_i { (8 ≤ i) × (i < 60) }
    requires constant_value { constant ≡ round_constant ((i - 1) / 8) }
    ensures { result ≡ temp w.now i }
{
    let last = word_at(w, i - 1);
    if i % 8 == 0 {
        return xors(sub_word(table, rot_word(last)), [constant, 0, 0, 0]);
    }
    if i % 8 == 4 {
        return sub_word(table, last);
    }
    last
}

fn next_word(table: &[u8; 256], w: &[u8; 240], constant: u8, i: usize) -> [u8; 4]
    requires table { IsTable 256 sbox table.now }
    requires le_i { (8 ≤ i) × (i < 60) }
    requires constant_value { constant ≡ round_constant ((i - 1) / 8) }
    ensures { result ≡ next_word w.now i }
{
    xors(word_at(w, i - 8), temporary(table, w, constant, i))
}

// The words of the key, and room for those that follow.
fn key_words(key: [u8; 32]) -> [u8; 240]
    ensures { take 32 result ≡ key }
{
    let mut w = [0u8; 240];
    w[..32].copy_from_slice(&key);
    w
}

// The expanded key: fifteen round keys of sixteen octets.
pub fn expand_key(key: [u8; 32]) -> [u8; 240]
    ensures { result ≡ key_expansion key }
{
    let table = substitution_table();
    let mut w = key_words(key);
    let mut constant: u8 = 1;
    for i in 8..60 {
        let next = next_word(&table, &w, constant, i);
        w[4 * i..4 * i + 4].copy_from_slice(&next);
        constant = constant_after(constant, i);
    }
    w
}
