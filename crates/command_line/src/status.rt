// What a program ends with.
ghost use Rattle.std.specs.Prelude.{◌≡◌, OnOk, OnErr};
ghost use Rattle.std.specs.Process.{exit_status};
ghost use Rattle.command_line.specs.Status.{status_number, joined};

use std::process::ExitCode;

#[derive(Clone, Copy)]
pub enum Status {
    Done,
    Failed,
    WrongWords,
}

// What stops a program before all is done, and is said on standard error
pub trait Stopping {
    fn say(self, rt: &HostRuntime);
}

impl Status {
    // Says what stopped it, if anything did
    pub fn of<S: Stopping>(rt: &HostRuntime, outcome: Result<(), S>) -> Status
        ensures done { OnOk outcome (result ≡ Status.Done) }
        ensures stopped { OnErr outcome (result ≡ Status.Failed) }
    {
        match outcome {
            Ok(()) => Status::Done,
            Err(stop) => {
                stop.say(rt);
                Status::Failed
            }
        }
    }

    // Done where both are
    pub fn and(self, other: Status) -> Status
        ensures { result ≡ joined self other }
    {
        match self {
            Status::Done => other,
            stopped => stopped,
        }
    }
}

impl From<Status> for u8 {
    ghost from_gives = { λ status number. number ≡ status_number status };

    fn from(status: Status) -> u8 {
        match status {
            Status::Done => 0,
            Status::Failed => 1,
            Status::WrongWords => 2,
        }
    }
}

impl From<Status> for ExitCode {
    ghost from_gives = { λ status code. exit_status code ≡ status_number status };

    fn from(status: Status) -> ExitCode {
        ExitCode::from(u8::from(status))
    }
}
