// The program `sequences`, which ends with the status that the library answers.
#![tactic(auto)]

use std::process::ExitCode;

fn main(rt: HostRuntime) -> ExitCode {
    ExitCode::from(sequence_tool::run(&rt))
}
