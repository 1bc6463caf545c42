// Runs the examples of SP 800-38B for AES-256, and writes how many it ran, and how many differ.
#![tactic(auto)]

mod macs;

use macs::is_example;
use std::io;
use vector_lines::run_file;

fn main(rt: HostRuntime) -> io::Result<()> {
    run_file(&rt, "SP80038B.txt", "SP 800-38B", "MACs", |_, line| {
        Some(is_example(line))
    })
}
