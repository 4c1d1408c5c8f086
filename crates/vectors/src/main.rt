// The test sequences of docs/SEQUENCES.md: with no argument a line of checksums for each of them, with the name of one
// as the argument a line for each of its samples. The files of PCM octets are looked for in the folder it is run in.
// What cannot be written is left out. The program asks for no memory, and its status is 0.
#![tactic(auto)]

mod codewords;
mod drive;
mod ends;
mod inputs;
mod laws;
mod lines;
mod magnitudes;
mod names;
mod runs;
mod signs;
#[cfg(test)]
mod tests;

use drive::perform;
use inputs::Inputs;
use lines::Summary;
use names::{HELP, is_named};
use runs::{Run, all_runs};
use std::env::{Env, FillError};
use std::io::Write;

// No sequence's name is longer; a longer argument is not told.
const ROOM: usize = 4096;

fn main(rt: HostRuntime) {
    let mut inputs = Inputs::blank();
    match inputs.read(&rt) {
        Ok(()) => run_on(&rt, &inputs),
        Err(unread) => {
            let _ = eprintln!(rt; "{unread}");
        }
    }
}

fn run_on(rt: &HostRuntime, inputs: &Inputs) {
    let runs = all_runs();
    let mut name = [0; ROOM];
    // Only whether there is one is asked.
    let mut second = [0; 1];
    match (argument(rt, 1, &mut name), argument(rt, 2, &mut second)) {
        (None, _) => write_runs(rt, &runs, inputs),
        (Some(name), None) => dump(rt, &runs, inputs, name),
        _ => {
            let _ = eprintln!(rt; "the name of one sequence, or none");
        }
    }
}

fn argument<'a>(rt: &HostRuntime, i: usize, room: &'a mut [u8]) -> Option<&'a [u8]> {
    match rt.arg(i, room) {
        Ok(n) => Some(&room[..n]),
        Err(FillError::TooLong) => Some(&[]),
        Err(FillError::NotPresent) => None,
    }
}

fn write_runs(rt: &HostRuntime, runs: &[Run], inputs: &Inputs) {
    for run in runs {
        let summary = Summary::of(*run, inputs);
        let _ = println!(rt; "{run} {summary}");
    }
}

fn dump(rt: &HostRuntime, runs: &[Run], inputs: &Inputs, name: &[u8]) {
    match runs.iter().find(|run| is_named(run, name)) {
        Some(run) => {
            perform(*run, inputs, |index, sample| {
                let _ = println!(rt; "{index} {sample}");
            });
        }
        None => {
            let _ = eprint!(rt; "no sequence is named ");
            let _ = rt.stderr().write_all(name);
            let _ = eprintln!(rt; ": {HELP}");
        }
    }
}
