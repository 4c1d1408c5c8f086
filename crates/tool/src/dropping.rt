// drop: a frame in, a frame with fewer planes out.
ghost use Rattle.std.specs.Prelude.{◌≡◌};
ghost use Rattle.tool.specs.Widths.{at_most, width_at, width_of};

use crate::making::{Made, ROOM};
use arrayvec::ArrayVec;
use drop_planes::drop_planes;
use frame::header::{Header, read_header};
use replies::Refusal;
use state::State;

pub fn dropped(width: u8, s: State, octets: &[u8]) -> Result<Made, Refusal> {
    let mut out = ArrayVec::from([0; ROOM]);
    let count = drop_planes(octets, width, out.as_mut_slice())?;
    out.truncate(count);
    Ok(Made {
        octets: out,
        state: s,
    })
}

// The width that the frame is to get: the next of those that are asked for, as it is or at most
pub fn width_of(most: bool, widths: &[u8], frame: u64, octets: &[u8]) -> u8
    ensures { result ≡ width_of most widths.now frame octets.now }
{
    let asked = width_at(widths, frame);
    if most {
        return at_most(asked, read_header(octets));
    }
    asked
}

// Behind the last comes the first. There is one at least; where there were none, the call would refuse the 0.
fn width_at(widths: &[u8], frame: u64) -> u8
    ensures { result ≡ width_at widths.now frame }
{
    // std has no From between usize and u64; the check proves that `as` keeps the value.
    let place = frame.checked_rem(widths.len() as u64).unwrap_or(0);
    widths.get(place as usize).copied().unwrap_or(0)
}

// Never above the frame's own width, and never below its core
fn at_most(asked: u8, header: Header) -> u8
    ensures { result ≡ at_most asked header }
{
    asked.min(header.width).max(header.core)
}
