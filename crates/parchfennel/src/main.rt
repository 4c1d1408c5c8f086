// The tool as a program: what is installed, and ends with the status that the library answers.
#![tactic(auto)]

use std::process::ExitCode;

fn main(rt: HostRuntime) -> ExitCode {
    ExitCode::from(tool::run(&rt))
}
