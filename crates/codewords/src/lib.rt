// A frame decoded, whichever end hears it: its reply, and the run over its codewords.
#![tactic(auto)]

ghost use Rattle.std.specs.Prelude.{◌≡◌, ◌+◌, ◌*◌, ◌≤◌, length};
ghost use Rattle.words.specs.First.{first};
ghost use Rattle.state.specs.InRange.{MemoryInRange};
ghost use Rattle.frame.specs.Header.{header_of, header_length, sample_count};
ghost use Rattle.frame.specs.Read.{codewords};
ghost use Rattle.frame.specs.Sound.{SoundHeader};
ghost use Rattle.replies.specs.Reply.{number_of};
ghost use Rattle.codewords.specs.Decode.{decode_rows, decode_number, DecodesCodewords};
ghost use Rattle.codewords.specs.Inner.{Decodable, DecodesFrame, HearsAll};

use frame::header::{
    Header, frame_reply, header_length, is_due, number_after, read_header, sample_count,
};
use frame::planes::codeword_at;
use replies::Refusal;
use sample::end::End;
use state::answer::Answer;
use state::memory::Memory;
use state::{State, in_range, moved_on};

// How many samples of out are the frame's, and at how many of them the codeword and the end's sample disagree
#[derive(Clone, Copy)]
pub struct Decoded {
    pub samples: usize,
    pub disagreements: usize,
}

// What a run over a frame's codewords comes to
#[derive(Clone, Copy)]
struct Run {
    disagreements: usize,
    memory: Memory,
}

// The call of a decoder, at any end
pub fn decode_samples<E: End>(
    end: E,
    s: State,
    frame: &[u8],
    out: &mut [E::Sample],
) -> Answer<Decoded>
    ensures { DecodesCodewords (decode_number (E.known end) s (header_of frame.now) (length frame.now) (length out.old)) s frame.now out.old (E.heard end) (E.counted end) out.new result.done result.state }
{
    let h = read_header(frame);
    match decode_reply(end.is_known(), s, h, frame.len(), out.len()) {
        Ok(()) => decode_into(end, s, h, &frame[header_length(h.edition)..], out),
        Err(refusal) => Answer {
            state: s,
            done: Err(refusal),
        },
    }
}

#[tactic(auto, unfolding(crate::specs::Decode::decode_number, words::specs::First::first))]
pub fn decode_reply(
    known: bool,
    s: State,
    h: Header,
    length: usize,
    room: usize,
) -> Result<(), Refusal>
    ensures { number_of result ≡ decode_number known s h length room }
{
    if !in_range(s) {
        return Err(Refusal::Range);
    }
    if !known {
        return Err(Refusal::Law);
    }
    frame_reply(h, length)?;
    behind_reply(s, h, room)
}

// Behind the frame's own rows: the core, the number that is due, and the room
#[tactic(auto, unfolding(words::specs::First::first))]
fn behind_reply(s: State, h: Header, room: usize) -> Result<(), Refusal>
    ensures { number_of result ≡ first (decode_rows s h room) }
{
    if h.core != s.core {
        return Err(Refusal::Core);
    }
    if !is_due(h, s.number) {
        return Err(Refusal::Number);
    }
    if room < sample_count(h) {
        return Err(Refusal::Room);
    }
    Ok(())
}

// Of a frame that is not refused
fn decode_into<E: End>(
    end: E,
    s: State,
    h: Header,
    planes: &[u8],
    out: &mut [E::Sample],
) -> Answer<Decoded>
    requires { Decodable s h (header_length h.edition + length planes.now) (length out.old) }
    ensures { DecodesFrame (E.heard end) (E.counted end) s h (codewords h.width h.groups planes.now) out.old out.new result.done result.state }
{
    let n = sample_count(h);
    let run = hear_all(end, s.memory, h, planes, &mut out[..n]);
    Answer {
        state: moved_on(s, run.memory, number_after(h.edition, s.number)),
        done: Ok(Decoded {
            samples: n,
            disagreements: run.disagreements,
        }),
    }
}

// Each sample, from the frame's planes, and what the memory and the count of disagreements come to
fn hear_all<E: End>(end: E, from: Memory, h: Header, planes: &[u8], out: &mut [E::Sample]) -> Run
    requires memory { MemoryInRange from }
    requires header { SoundHeader h }
    requires planes { h.width * h.groups ≤ length planes.now }
    requires room { length out.old ≡ sample_count h }
    ensures { HearsAll (E.heard end h.core h.width) (E.counted end h.core h.width) h.core h.width from (codewords h.width h.groups planes.now) out.new result.disagreements result.memory }
{
    let mut memory = from;
    let mut disagreements = 0;
    for (k, place) in out.iter_mut().enumerate() {
        let i = codeword_at(planes, h.width, usize::from(h.groups), k);
        let heard = end.hear(memory, h.core, h.width, i);
        *place = heard.sample;
        disagreements += usize::from(heard.disagreement);
        memory = heard.memory;
    }
    Run {
        disagreements,
        memory,
    }
}
