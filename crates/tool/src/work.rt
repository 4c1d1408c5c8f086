// The one loop: a piece of the input is read, something is made of it, and that is written.
ghost use Rattle.std.specs.Prelude.{◌≡◌};
ghost use Rattle.frame.specs.Header.{header_of};

use crate::encoding::first_off_scale;
use crate::files::Files;
use crate::inspecting::{HEADING, Totals};
use crate::list::LIST_ROOM;
use crate::making::{Refused, Work};
use crate::states;
use crate::states::Row;
use crate::stop::{Fault, Place, Stop};
use command_line::Task;
use command_line::program::Program;
use command_line::status::Status;
use frame::header::{read_header, sample_count};
use replies::Refusal;
use state::State;
use streams::writing::{write_all, write_line};

// A task made ready: what becomes of each piece, the files, and whether the states are said
#[derive(Drop)]
struct Job<'a> {
    verbose: bool,
    work: Work<'a>,
    files: Files,
}

// Between two pieces: where the next one begins, how many samples there were, and the state
#[derive(Clone, Copy)]
struct Turn {
    place: Place,
    samples: u64,
    state: State,
}

pub fn perform(rt: &HostRuntime, task: Task) -> Status {
    // Not on the heap, so that drop cannot run out of memory.
    let mut room = [0; LIST_ROOM];
    match Job::begin(rt, task, &mut room) {
        Ok(job) => {
            let ran = job.run(rt);
            ran.and(Status::of(rt, job.files.settle(rt).map_err(Stop::from)))
        }
        Err(stop) => Status::of(rt, Err(stop)),
    }
}

impl<'a> Job<'a> {
    fn begin(rt: &HostRuntime, task: Task, room: &'a mut [u8; LIST_ROOM]) -> Result<Job<'a>, Stop> {
        let work = Work::of(rt, task.command, room)?;
        let files = Files::open(rt, task)?;
        Ok(Job {
            verbose: task.verbose,
            work,
            files,
        })
    }

    // The totals are of a stream that stopped too, unless they cannot be written.
    fn run(&self, rt: &HostRuntime) -> Status {
        let mut turn = Turn {
            place: Place { frame: 0, octet: 0 },
            samples: 0,
            state: self.work.first_state(),
        };
        let outcome = self.run_all(rt, &mut turn);
        let ran = Status::of(rt, outcome);
        match outcome {
            Err(stop) if stop.is_unwritten() => ran,
            _ => ran.and(Status::of(rt, self.end(rt, turn))),
        }
    }

    // A proved loop has to end, and nothing says that a stream does: it ends before a piece whose number no run reaches.
    fn run_all(&self, rt: &HostRuntime, turn: &mut Turn) -> Result<(), Stop> {
        if let Work::Inspect = self.work {
            write_line(rt, &self.files.output, HEADING)?;
        }
        states::begin(rt, &self.files.states)?;
        for _ in 0..u64::MAX {
            if !self.next(rt, turn)? {
                break;
            }
        }
        Ok(())
    }

    // Answers whether there was a piece.
    fn next(&self, rt: &HostRuntime, turn: &mut Turn) -> Result<bool, Stop> {
        let Turn { place, state, .. } = *turn;
        let Some(piece) = self.files.next_piece(rt, &self.work, place)? else {
            return Ok(false);
        };
        let octets = piece.octets.as_slice();
        let made = self
            .work
            .make(place, state, octets)
            .map_err(|refused| turn.refused(refused, octets))?;
        // Not before the call, since no frame that is refused is filled up
        if 0 < piece.added {
            say_filled(rt, place, piece.added);
        }
        write_all(rt, &self.files.output, made.octets.as_slice())?;
        let row = Row {
            frame: place.frame,
            state: made.state,
        };
        states::show(rt, self.verbose, &self.files.states, row)?;
        turn.pass(made.state, octets);
        Ok(true)
    }

    fn end(&self, rt: &HostRuntime, turn: Turn) -> Result<(), Stop> {
        if let Work::Inspect = self.work {
            let totals = Totals {
                frames: turn.place.frame,
                octets: turn.place.octet,
                samples: turn.samples,
            };
            write_line(rt, &self.files.output, totals)?;
        }
        Ok(())
    }
}

fn say_filled(rt: &HostRuntime, place: Place, samples: usize) {
    let program = Program::Parchfennel;
    let _ = eprintln!(rt;
        "{program}: note: {place}: filled up with silence; samples added: {samples}"
    );
}

// What was refused, with what the reply's row does not say. The due number is that of the state which the refused call hands back.
fn fault_of(octet: u64, refused: Refused, piece: &[u8]) -> Fault
    ensures { refused.refusal ≡ Refusal.Number → result ≡ Fault.Number (header_of piece.now).number refused.state.number }
{
    match refused.refusal {
        Refusal::Number => Fault::Number(read_header(piece).number, refused.state.number),
        Refusal::Sample => {
            first_off_scale(octet, piece).unwrap_or(Fault::Refused(Refusal::Sample))
        }
        refusal => Fault::Refused(refusal),
    }
}

impl Turn {
    fn refused(self, refused: Refused, piece: &[u8]) -> Stop {
        Stop::Piece(self.place, fault_of(self.place.octet, refused, piece))
    }

    // Behind a piece. Encode's has no header, and its totals nobody asks for.
    fn pass(&mut self, state: State, piece: &[u8]) {
        // std has no From of usize for u64; the check proves that `as` keeps the value.
        let samples = sample_count(read_header(piece)) as u64;
        self.place.frame = self.place.frame.wrapping_add(1);
        self.place.octet = self.place.octet.wrapping_add(piece.len() as u64);
        self.samples = self.samples.wrapping_add(samples);
        self.state = state;
    }
}
