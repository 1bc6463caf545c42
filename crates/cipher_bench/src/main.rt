// Chains of calls, for measuring: of the cipher alone, and of the modes that stand on it.
#![tactic(auto)]

mod chains;
mod modes;

use lines::{Hexadecimal, read_number};
use std::{env, io};

const KEY: [u8; 32] = *b"\
    \x00\x01\x02\x03\x04\x05\x06\x07\x08\x09\x0a\x0b\x0c\x0d\x0e\x0f\
    \x10\x11\x12\x13\x14\x15\x16\x17\x18\x19\x1a\x1b\x1c\x1d\x1e\x1f";

fn print_line(rt: &impl Print, octets: &[u8]) -> io::Result<()> {
    println!(rt; "{}", Hexadecimal(octets))
}

fn print_usage(rt: &impl Print) -> io::Result<()> {
    println!(rt; "usage: cipher_bench blocks|keys COUNT")?;
    println!(rt; "       cipher_bench mac|seal SIZE COUNT (a SIZE of at most 2048)")
}

fn run_cipher(rt: &impl Print, what: &str, count: Option<u64>) -> io::Result<()> {
    match (what, count) {
        ("blocks", Some(count)) => print_line(rt, &chains::blocks(KEY, count)),
        ("keys", Some(count)) => print_line(rt, &chains::keys(KEY, count)),
        _ => print_usage(rt),
    }
}

// The first message is all zeros.
fn run_mode(rt: &impl Print, what: &str, size: Option<u64>, count: Option<u64>) -> io::Result<()> {
    let mut whole = [0u8; modes::MOST];
    let message = size.and_then(|size| whole.get_mut(..size as usize));
    match (what, message, count) {
        ("mac", Some(message), Some(count)) => print_line(rt, &modes::macs(KEY, message, count)),
        ("seal", Some(message), Some(count)) => print_line(rt, &modes::seals(KEY, message, count)),
        _ => print_usage(rt),
    }
}

fn number(digits: &String) -> Option<u64> {
    read_number(digits.as_bytes())
}

// The first argument is the program's name.
fn run(rt: &impl Print, arguments: &[String]) -> io::Result<()> {
    match arguments {
        [_, what, count] => run_cipher(rt, what.as_str(), number(count)),
        [_, what, size, count] => run_mode(rt, what.as_str(), number(size), number(count)),
        _ => print_usage(rt),
    }
}

fn main(rt: HostRuntime) -> io::Result<()> {
    let arguments: Vec<String> = env::args(&rt)?.collect(rt.alloc())?;
    run(&rt, arguments.as_slice())
}
