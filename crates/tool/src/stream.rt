// The input in whole pieces: so many samples, or a frame as long as its header says.
ghost use Rattle.std.specs.Prelude.{◌≡◌, ◌<◌, ◌≤◌, replicate};
ghost use Rattle.tool.specs.Speech.{octets_of_sample, silent};

use crate::files::Files;
use crate::making::{ROOM, Work};
use crate::stop::{Fault, Place, Stop};
use arrayvec::ArrayVec;
use command_line::coding::Coding;
use command_line::law::Speech;
use frame::header::{FEWEST, GROUP, Header, due_length, header_reply, read_header};
use streams::reading::read_full;
use text::law::Law;

// What a command takes at once: a frame's samples, or a frame; and by how many samples it was filled up
#[derive(Drop)]
pub struct Piece {
    pub octets: ArrayVec<u8, ROOM>,
    pub added: usize,
}

impl Files {
    // None at the end of the stream
    pub fn next_piece(
        &self,
        rt: &HostRuntime,
        work: &Work,
        place: Place,
    ) -> Result<Option<Piece>, Stop> {
        match work {
            Work::Encode(coding) => self.next_samples(rt, *coding, place),
            _ => self.next_frame(rt, place),
        }
    }

    // What is not read over stays silent, so that the last frame is filled up with it.
    fn next_samples(
        &self,
        rt: &HostRuntime,
        coding: Coding,
        place: Place,
    ) -> Result<Option<Piece>, Stop> {
        let size = octets_of_sample(coding.speech);
        let asked = coding.samples.saturating_mul(size).min(ROOM);
        let mut octets = ArrayVec::from(silence(coding.speech));
        let n = read_full(rt, &self.input, &mut octets.as_mut_slice()[..asked])?;
        if n == 0 {
            return Ok(None);
        }
        if n % size != 0 {
            return Err(Stop::Piece(place, Fault::CutSample));
        }
        let filled = n.next_multiple_of(GROUP * size);
        octets.truncate(filled);
        Ok(Some(Piece {
            octets,
            added: (filled - n) / size,
        }))
    }

    fn next_frame(&self, rt: &HostRuntime, place: Place) -> Result<Option<Piece>, Stop> {
        let mut octets = ArrayVec::from([0; ROOM]);
        let buf = octets.as_mut_slice();
        let n = read_full(rt, &self.input, &mut buf[..FEWEST])?;
        if n == 0 {
            return Ok(None);
        }
        let due = octets_due(read_header(&buf[..n])).clamp(n, ROOM);
        let rest = read_full(rt, &self.input, &mut buf[n..due])?;
        if n + rest < due {
            return Err(Stop::Piece(place, Fault::CutFrame(n + rest)));
        }
        octets.truncate(due);
        Ok(Some(Piece { octets, added: 0 }))
    }
}

// Of a law an octet for each sample, of linear samples two
fn octets_of_sample(speech: Speech) -> usize
    ensures octets { result ≡ octets_of_sample speech }
    ensures some { 0 < result }
    ensures few { result ≤ 2 }
{
    match speech {
        Speech::Companded(_) => 1,
        Speech::Linear => 2,
    }
}

// Full of it
fn silence(speech: Speech) -> [u8; ROOM]
    ensures { result ≡ replicate ROOM (silent speech) }
{
    match speech {
        Speech::Companded(Law::Mu) => [0xff; ROOM],
        Speech::Companded(Law::A) => [0xd5; ROOM],
        Speech::Linear => [0; ROOM],
    }
}

// Of a header that is itself wrong nothing is read on: no call looks further
fn octets_due(header: Header) -> usize {
    match header_reply(header) {
        Ok(()) => due_length(header),
        Err(_) => FEWEST,
    }
}
