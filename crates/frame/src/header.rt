// The header as a value: read once from a frame, how long its frame is, and what is wrong with it by itself or with the
// frame's length (docs/RULES.md, "The frame" and rows 5, 1, 2 and 6 of its replies).
ghost use Rattle.std.specs.Prelude.{◌≡◌, get_or};
ghost use Rattle.words.specs.First.{first};
ghost use Rattle.replies.specs.Reply.{number_of};
ghost use Rattle.frame.specs.Header.{header_length, head, borne, header_of, due_length, sample_count, is_edition, is_numbered, is_groups, is_count, is_due, number_after};
ghost use Rattle.frame.specs.Rows.{header_rows, frame_rows};
ghost use Rattle.frame.specs.Sound.{SoundHeader};

use quantizer::pair::is_pair;
use replies::Refusal;

// The limits of specs/Header.antt. An edition stays a number: it is two bits of a header that anyone may hand in, 0 and 3 too.
pub const PLAIN: u8 = 1;

pub const NUMBERED: u8 = 2;

pub const FEWEST: usize = 2;

pub const GROUP: usize = 8;

pub const MOST_GROUPS: u8 = 40;

// usize::from is no const fn.
pub const MOST_SAMPLES: usize = MOST_GROUPS as usize * GROUP;

#[derive(Clone, Copy, Debug, PartialEq, Eq)]
pub struct Header {
    pub edition: u8,
    pub width: u8,
    pub core: u8,
    pub groups: u8,
    pub number: u8,
}

#[tactic(auto, unfolding(crate::specs::Header::header_of))]
pub fn read_header(frame: &[u8]) -> Header
    ensures { result ≡ header_of frame.now }
{
    let first = octet_at(frame, 0);
    let groups = octet_at(frame, 1);
    let number = borne(first >> 6, octet_at(frame, 2));
    Header {
        edition: first >> 6,
        width: (first >> 3) % 8,
        core: first % 8,
        groups,
        number,
    }
}

fn octet_at(frame: &[u8], i: usize) -> u8
    ensures { result ≡ get_or frame.now i 0 }
{
    frame.get(i).copied().unwrap_or(0)
}

// The header's first octet
pub fn head(h: Header) -> u8
    requires { SoundHeader h }
    ensures { result ≡ head h.edition h.width h.core }
{
    (h.edition << 6) + (h.width << 3) + h.core
}

pub fn is_numbered(e: u8) -> bool
    ensures { result ≡ is_numbered e }
{
    e == NUMBERED
}

// The number in the header of a frame of this edition, where n is the next one
pub fn borne(e: u8, n: u8) -> u8
    ensures { result ≡ borne e n }
{
    if is_numbered(e) { n } else { 0 }
}

// The octets before the planes
#[tactic(auto, unfolding(crate::specs::Header::header_length))]
pub fn header_length(e: u8) -> usize
    ensures { result ≡ header_length e }
{
    if is_numbered(e) { 3 } else { 2 }
}

#[tactic(auto, using(crate::proofs::Headers::header_short))]
pub fn due_length(h: Header) -> usize
    ensures { result ≡ due_length h }
{
    header_length(h.edition) + usize::from(h.width) * usize::from(h.groups)
}

pub fn sample_count(h: Header) -> usize
    ensures { result ≡ sample_count h }
{
    GROUP * usize::from(h.groups)
}

pub fn is_edition(e: u8) -> bool
    ensures { result ≡ is_edition e }
{
    (PLAIN..=NUMBERED).contains(&e)
}

// Whether a frame of this edition may have so many groups. Both editions have one limit so far.
#[tactic(auto, unfolding(crate::specs::Header::most_groups))]
pub fn is_groups(e: u8, g: u8) -> bool
    ensures { result ≡ is_groups e g }
{
    (1..=MOST_GROUPS).contains(&g)
}

// Whether a frame of this edition may have so many samples
#[tactic(auto, unfolding(crate::specs::Header::most_groups))]
pub fn is_count(e: u8, n: usize) -> bool
    ensures { result ≡ is_count e n }
{
    n % GROUP == 0 && (GROUP..=MOST_SAMPLES).contains(&n)
}

// Whether a decoder whose next number is this one takes the frame's
pub fn is_due(h: Header, number: u8) -> bool
    ensures { result ≡ is_due h number }
{
    !is_numbered(h.edition) || h.number == number
}

// The number that is due behind a frame of this edition, where n was
#[tactic(auto, unfolding(crate::specs::Header::number_after))]
pub fn number_after(e: u8, n: u8) -> u8
    ensures { result ≡ number_after e n }
{
    if is_numbered(e) { n.wrapping_add(1) } else { n }
}

// Ok, or the first row that applies to the header alone
#[tactic(auto, unfolding(words::specs::First::first))]
pub fn header_reply(h: Header) -> Result<(), Refusal>
    ensures { number_of result ≡ first (header_rows h) }
{
    if !is_edition(h.edition) {
        return Err(Refusal::Header);
    }
    if !is_pair(h.width, h.core) {
        return Err(Refusal::Pair);
    }
    if !is_groups(h.edition, h.groups) {
        return Err(Refusal::Count);
    }
    Ok(())
}

// Ok, or the first row that applies to a frame of so many octets with this header. Two parameters, here and in the calls that ask it: the rows are
// promised of any header at any length.
#[tactic(auto, using(crate::proofs::Sounds::frame_front, replies::proofs::Answers::refuses), unfolding(words::specs::First::first))]
pub fn frame_reply(h: Header, length: usize) -> Result<(), Refusal>
    ensures { number_of result ≡ first (frame_rows h length) }
{
    if length < FEWEST {
        return Err(Refusal::Header);
    }
    header_reply(h)?;
    if length != due_length(h) {
        return Err(Refusal::Length);
    }
    Ok(())
}
