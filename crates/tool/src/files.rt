// The files of a task, opened: standard input and output where no word names another.
use command_line::Task;
use streams::failure::Failure;
use streams::files::{Stream, created, hold_standard_streams, opened};
use streams::writing::settle;

#[derive(Drop)]
pub struct Files {
    pub input: Stream,
    pub output: Stream,
    pub states: Option<Stream>,
}

impl Files {
    // IN first: where it is not there, OUT is not touched.
    pub fn open(rt: &HostRuntime, task: Task) -> Result<Files, Failure> {
        hold_standard_streams(rt);
        let input = match task.input {
            None => Stream::Standard,
            Some(place) => opened(rt, place, "IN")?,
        };
        let output = match task.output {
            None => Stream::Standard,
            Some(place) => created(rt, place, "OUT")?,
        };
        let states = task
            .states
            .map(|place| created(rt, place, "the file of -states"))
            .transpose()?;
        Ok(Files {
            input,
            output,
            states,
        })
    }

    // What a file system holds back it may refuse only now.
    pub fn settle(&self, rt: &HostRuntime) -> Result<(), Failure> {
        settle(rt, &self.output)?;
        match &self.states {
            None => Ok(()),
            Some(states) => settle(rt, states),
        }
    }
}
