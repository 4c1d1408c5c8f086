// decode: a frame in, samples out.
ghost use Rattle.std.specs.Prelude.{◌≡◌, IfErr};
ghost use Rattle.tool.specs.Beginning.{state_met};

use crate::making::{Made, ROOM, Refused};
use arrayvec::ArrayVec;
use command_line::law::Speech;
use decode::decode;
use decode_linear::decode_linear;
use frame::header::{MOST_SAMPLES, read_header};
use reset::reset;
use state::State;
use text::samples::{Order, octets_of};

pub fn decoded(speech: Speech, frame: u64, s: State, octets: &[u8]) -> Result<Made, Refused>
    ensures { IfErr result (λ refused. refused.state ≡ state_met frame s octets.now) }
{
    let met = state_at(frame, s, octets);
    let mut out = ArrayVec::from([0; ROOM]);
    let (state, count) = match speech {
        Speech::Companded(law) => {
            let answer = decode(met, u8::from(law), octets, out.as_mut_slice());
            (answer.state, Refused::or_done(answer)?.samples)
        }
        Speech::Linear => {
            let mut samples = [0; MOST_SAMPLES];
            let answer = decode_linear(met, octets, &mut samples);
            let n = Refused::or_done(answer)?.samples.min(MOST_SAMPLES);
            let count = octets_of(&samples[..n], Order::LowFirst, out.as_mut_slice());
            (answer.state, count)
        }
    };
    out.truncate(count);
    Ok(Made { octets: out, state })
}

// Before the first frame the state is reset, to the core that its header has.
fn state_at(frame: u64, s: State, octets: &[u8]) -> State
    ensures { result ≡ state_met frame s octets.now }
{
    if 0 < frame {
        return s;
    }
    let header = read_header(octets);
    let started = reset(header.core);
    started.state
}
