// encode: a frame's samples in, a frame out.
use crate::making::{Made, ROOM};
use crate::stop::Fault;
use arrayvec::ArrayVec;
use command_line::coding::Coding;
use command_line::law::Speech;
use encode::encode;
use encode_linear::encode_linear;
use frame::header::MOST_SAMPLES;
use linear::is_level;
use replies::Refusal;
use state::State;
use text::samples::{Order, samples_in};

pub fn encoded(coding: Coding, s: State, speech: &[u8]) -> Result<Made, Refusal> {
    let width = coding.pair.width;
    let edition = coding.edition;
    let mut out = ArrayVec::from([0; ROOM]);
    let answer = match coding.speech {
        Speech::Companded(law) => {
            encode(s, u8::from(law), edition, width, speech, out.as_mut_slice())
        }
        Speech::Linear => {
            let samples = linear_samples(speech);
            encode_linear(s, edition, width, samples.as_slice(), out.as_mut_slice())
        }
    };
    Made::of(out, answer)
}

fn linear_samples(speech: &[u8]) -> ArrayVec<i16, MOST_SAMPLES> {
    let mut samples = ArrayVec::from([0; MOST_SAMPLES]);
    let count = samples_in(speech, Order::LowFirst, samples.as_mut_slice());
    samples.truncate(count);
    samples
}

// The first that is no level, with its place in the stream; the frame's octets begin at `octet`, two to a sample.
pub fn first_off_scale(octet: u64, speech: &[u8]) -> Option<Fault> {
    let samples = linear_samples(speech);
    let (place, sample) = (octet / 2..)
        .zip(samples.as_slice())
        .find(|(_, sample)| !is_level(**sample))?;
    Some(Fault::Sample(place, *sample))
}
