// Runs the published vectors of GCM, and writes lines for each file of them: how many it ran, and how many differ.
#![tactic(auto)]

mod refusals;

use gcm_entries::{ADDITIONAL, CIPHERTEXT, TAG, is_entry, is_opened, is_sealed};
use refusals::refused;
use std::io;
use std::rt::Files;
use vector_lines::run_file;

// The fields that are changed, and what is said of each.
const CHANGED: [(usize, &str); 3] = [
    (TAG, "refusals of a changed tag"),
    (CIPHERTEXT, "refusals of a changed ciphertext"),
    (ADDITIONAL, "refusals of changed additional data"),
];

// The entries of a file are sealed, opened, and refused with a bit changed.
fn run_entries(rt: &(impl Files + Print + Eprint), path: &str, name: &str) -> io::Result<()> {
    run_file(rt, path, name, "seals", |_, line| {
        Some(is_entry(line) & is_sealed(line))
    })?;
    run_file(rt, path, name, "openings", |_, line| {
        Some(is_entry(line) & is_opened(line))
    })?;
    for (changed, what) in CHANGED {
        run_file(rt, path, name, what, |n, line| refused(changed, n, line))?;
    }
    Ok(())
}

fn main(rt: HostRuntime) -> io::Result<()> {
    run_entries(&rt, "GCM13to16.txt", "GCM test cases 13 to 16")?;
    run_entries(&rt, "gcmEncryptExtIV256.txt", "gcmEncryptExtIV256")
}
