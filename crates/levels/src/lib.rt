// A frame of samples encoded, whichever end they come from: its reply, the samples' levels, and the work on the levels.
#![tactic(auto)]

ghost use Rattle.std.specs.Prelude.{true, map, ◌≡◌, ◌*◌, ◌/◌, ◌≤◌, length, IfOk};
ghost use Rattle.std.specs.List.{list_all};
ghost use Rattle.words.specs.First.{first};
ghost use Rattle.quantizer.specs.Pair.{Pair};
ghost use Rattle.state.specs.InRange.{MemoryInRange};
ghost use Rattle.frame.specs.Header.{numbered, group, most_groups};
ghost use Rattle.replies.specs.Reply.{number_of};
ghost use Rattle.levels.specs.Levels.{due_header};
ghost use Rattle.levels.specs.Encode.{asked_rows, lent_rows, encode_number, EncodesLevels};
ghost use Rattle.levels.specs.Inner.{FourteenBits, Encodable, LevelsAll, EncodesAll, EncodesFrame};

use frame::header::{
    GROUP, Header, MOST_SAMPLES, borne, due_length, is_count, is_edition, number_after,
};
use frame::whole::write_frame;
use quantizer::pair::is_pair;
use replies::Refusal;
use sample::end::End;
use sample::level::encode_level;
use state::answer::Answer;
use state::memory::Memory;
use state::{State, in_range, moved_on};

// The call of an encoder, at any end: what it answers is how many octets of out are the frame
pub fn encode_samples<E: End>(
    end: E,
    s: State,
    edition: u8,
    width: u8,
    samples: &[E::Sample],
    out: &mut [u8],
) -> Answer<usize>
    ensures { EncodesLevels (encode_number (E.known end) s edition width (length samples.now) (list_all (E.taken end) samples.now) (length out.old)) s edition width (length samples.now) (map (E.level_is end) samples.now) out.old out.new result.done result.state }
{
    match fit_header(end, s, edition, width, samples, out.len()) {
        Ok(h) => Answer {
            state: encode_into(end, s, h, samples, out),
            done: Ok(due_length(h)),
        },
        Err(refusal) => Answer {
            state: s,
            done: Err(refusal),
        },
    }
}

// The header of the samples' frame, where no row refuses it. The samples are looked at where their count is a frame's, and not before. State,
// edition, width and count come as the call hands them in: a Header holds none until the count is tested.
fn fit_header<E: End>(
    end: E,
    s: State,
    edition: u8,
    width: u8,
    samples: &[E::Sample],
    room: usize,
) -> Result<Header, Refusal>
    ensures number { number_of result ≡ encode_number (E.known end) s edition width (length samples.now) (list_all (E.taken end) samples.now) room }
    ensures header { IfOk result (λ h. h ≡ due_header s edition width (length samples.now)) }
{
    asked_reply(end.is_known(), s, edition, width, samples.len())?;
    let h = due_header(s, edition, width, samples.len());
    lent_reply(are_taken(end, samples), h, room)?;
    Ok(h)
}

// Of what is asked: the state, the end, the edition, the width and the count
#[tactic(auto, unfolding(words::specs::First::first))]
pub fn asked_reply(known: bool, s: State, edition: u8, width: u8, n: usize) -> Result<(), Refusal>
    ensures { number_of result ≡ first (asked_rows known s edition width n) }
{
    if !in_range(s) {
        return Err(Refusal::Range);
    }
    if !known {
        return Err(Refusal::Law);
    }
    if !is_edition(edition) {
        return Err(Refusal::Header);
    }
    if !is_pair(width, s.core) {
        return Err(Refusal::Pair);
    }
    if !is_count(edition, n) {
        return Err(Refusal::Count);
    }
    Ok(())
}

// Of what is lent: whether the samples can be taken, and the room that there is for the frame
#[tactic(auto, unfolding(words::specs::First::first))]
pub fn lent_reply(taken: bool, h: Header, room: usize) -> Result<(), Refusal>
    ensures { number_of result ≡ first (lent_rows taken h room) }
{
    if !taken {
        return Err(Refusal::Sample);
    }
    if room < due_length(h) {
        return Err(Refusal::Room);
    }
    Ok(())
}

fn are_taken<E: End>(end: E, samples: &[E::Sample]) -> bool
    ensures { result ≡ list_all (E.taken end) samples.now }
{
    samples.iter().all(|sample| end.takes(*sample))
}

// The header of n samples' frame
pub fn due_header(s: State, edition: u8, width: u8, n: usize) -> Header
    requires { n / group ≤ 255 }
    ensures { result ≡ due_header s edition width n }
{
    Header {
        edition,
        width,
        core: s.core,
        // Narrowed by `as`, proved to lose nothing; TryFrom would add a failure that cannot come.
        groups: (n / GROUP) as u8,
        number: borne(edition, s.number),
    }
}

fn encode_into<E: End>(end: E, s: State, h: Header, samples: &[E::Sample], out: &mut [u8]) -> State
    requires able { Encodable s h (length samples.now) (length out.old) }
    requires taken { list_all (E.taken end) samples.now ≡ true }
    ensures { EncodesFrame s h (map (E.level_is end) samples.now) out.old out.new result }
{
    // Room for the longest frame, and not a Vec: the codec takes no memory.
    let mut levels = [0; MOST_SAMPLES];
    level_all(end, samples, &mut levels);
    encode_levels(s, h, &levels[..samples.len()], out)
}

// The end's part ends here. Written by index: of a zip with iter_mut a proof knows the length only.
fn level_all<E: End>(end: E, samples: &[E::Sample], levels: &mut [u16])
    requires room { length samples.now ≤ length levels.old }
    requires taken { list_all (E.taken end) samples.now ≡ true }
    ensures { LevelsAll (map (E.level_is end) samples.now) levels.old levels.new }
{
    for (i, sample) in samples.iter().enumerate() {
        levels[i] = end.level(*sample);
    }
}

pub fn encode_levels(s: State, h: Header, levels: &[u16], out: &mut [u8]) -> State
    requires { Encodable s h (length levels.now) (length out.old) × FourteenBits levels.now }
    ensures { EncodesFrame s h levels.now out.old out.new result }
{
    // Room for the longest frame, as above
    let mut codewords = [0; MOST_SAMPLES];
    let memory = encode_all(s.memory, s.core, h.width, levels, &mut codewords);
    write_frame(&codewords[..levels.len()], h, out);
    moved_on(s, memory, number_after(h.edition, s.number))
}

// The codewords of all levels, one to an octet. Written by index, as the levels are above.
fn encode_all(from: Memory, core: u8, width: u8, levels: &[u16], codewords: &mut [u8]) -> Memory
    requires { MemoryInRange from × Pair width core × (length levels.now ≤ length codewords.old) × FourteenBits levels.now }
    ensures { EncodesAll core width from levels.now codewords.old codewords.new result }
{
    let mut memory = from;
    for (i, level) in levels.iter().enumerate() {
        let encoded = encode_level(memory, core, width, *level);
        codewords[i] = encoded.codeword;
        memory = encoded.memory;
    }
    memory
}
