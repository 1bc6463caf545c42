// Runs the published vectors of AES-256, and writes a line for each file of them: how many it ran, and how many differ.
#![tactic(auto)]

mod blocks;

use blocks::{is_encryption, is_word};
use std::io;
use std::rt::Files;
use vector_lines::run_file;

// NIST's four files of known answers, and its file of messages of several blocks.
const NIST: [(&str, &str); 5] = [
    ("ECBGFSbox256.txt", "ECBGFSbox256"),
    ("ECBKeySbox256.txt", "ECBKeySbox256"),
    ("ECBVarTxt256.txt", "ECBVarTxt256"),
    ("ECBVarKey256.txt", "ECBVarKey256"),
    ("ECBMMT256.txt", "ECBMMT256"),
];

// A word of the expanded key in each line.
fn run_words(rt: &(impl Files + Print + Eprint), path: &str, name: &str) -> io::Result<()> {
    run_file(rt, path, name, "words", |n, line| Some(is_word(n, line)))
}

// An encryption of a block in each line.
fn run_blocks(rt: &(impl Files + Print + Eprint), path: &str, name: &str) -> io::Result<()> {
    run_file(rt, path, name, "encryptions", |_, line| {
        Some(is_encryption(line))
    })
}

fn main(rt: HostRuntime) -> io::Result<()> {
    run_words(&rt, "FIPS197A3.txt", "FIPS 197 A.3")?;
    run_blocks(&rt, "FIPS197C3.txt", "FIPS 197 C.3")?;
    for (path, name) in NIST {
        run_blocks(&rt, path, name)?;
    }
    Ok(())
}
