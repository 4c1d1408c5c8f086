// inspect: a heading, a line for each frame, and totals.
ghost use Rattle.std.specs.Prelude.{◌≡◌, ◌+◌, ◌*◌, ◌/◌, ◌^◌, ◌<◌, ◌≤◌, max};

use crate::making::{Made, ROOM};
use arrayvec::ArrayVec;
use frame::header::{Header, frame_reply, is_numbered, read_header};
use replies::Refusal;
use state::State;
use std::fmt;
use std::fmt::{Display, Formatter};
use std::io::Write;

// No product of what is at most this is too great.
const MOST: u64 = 1 << 48;

pub const HEADING: &str = "frame edition x y g number octets";

#[derive(Clone, Copy)]
struct Row {
    frame: u64,
    header: Header,
    octets: usize,
}

#[derive(Clone, Copy)]
pub struct Totals {
    pub frames: u64,
    pub octets: u64,
    pub samples: u64,
}

pub fn inspected(frame: u64, s: State, octets: &[u8]) -> Result<Made, Refusal> {
    let header = read_header(octets);
    frame_reply(header, octets.len())?;
    let row = Row {
        frame,
        header,
        octets: octets.len(),
    };
    let mut line = ArrayVec::<u8, ROOM>::new();
    // A row is shorter than the room.
    let _ = writeln!(line, "{row}");
    Ok(Made {
        octets: line,
        state: s,
    })
}

// A dash where frames of the edition bear no number
impl Display for Row {
    fn fmt<W: fmt::Write>(&self, f: &mut Formatter<W>) -> fmt::Result {
        let Header {
            edition,
            width,
            core,
            groups,
            number,
        } = self.header;
        let frame = self.frame;
        let octets = self.octets;
        if is_numbered(edition) {
            return write!(
                f,
                "{frame} {edition} {width} {core} {groups} {number} {octets}"
            );
        }
        write!(f, "{frame} {edition} {width} {core} {groups} - {octets}")
    }
}

impl Display for Totals {
    fn fmt<W: fmt::Write>(&self, f: &mut Formatter<W>) -> fmt::Result {
        // std prints no fixed point but a float's, which would round what is great.
        let milliseconds = self.samples / 8;
        let tenths = rate(self.octets, milliseconds);
        write!(
            f,
            "frames: {}; samples: {}; seconds: {}.{:03}; kbit/s: {}.{}",
            self.frames,
            self.samples,
            milliseconds / 1000,
            milliseconds % 1000,
            tenths / 10,
            tenths % 10
        )
    }
}

// Bits a millisecond, in tenths, half a tenth upwards; 0 where there is no frame, and beyond what any stream comes to
fn rate(octets: u64, milliseconds: u64) -> u64
    ensures none { milliseconds ≡ 0 → result ≡ 0 }
    ensures beyond { 2 ^ 48 < max octets milliseconds → result ≡ 0 }
    ensures rounded { 0 < milliseconds → max octets milliseconds ≤ 2 ^ 48 → result ≡ (octets * 160 + milliseconds) / (milliseconds * 2) }
{
    if MOST < octets.max(milliseconds) {
        return 0;
    }
    (octets * 160 + milliseconds)
        .checked_div(milliseconds * 2)
        .unwrap_or(0)
}
