// The words of encode: LAW WIDTH CORE [SAMPLES [EDITION]]. The pair is the same in both programs.
ghost use Rattle.quantizer.specs.Pair.{is_pair};
ghost use Rattle.std.specs.Prelude.{◌≡◌, min, IsTrue, IfOk};
ghost use Rattle.frame.specs.Header.{is_count, is_edition};

use crate::call_words::Words;
use crate::law::{Speech, read_speech};
use crate::wrong::{Name, Wrong};
use frame::header::{PLAIN, is_count, is_edition};
use quantizer::pair::is_pair;

const USUAL_SAMPLES: usize = 160;

// One of the nine
#[derive(Clone, Copy)]
pub struct Pair {
    pub width: u8,
    pub core: u8,
    ghost is_pair: { IsTrue (is_pair width core) },
}

#[derive(Clone, Copy)]
pub struct Coding {
    pub speech: Speech,
    pub pair: Pair,
    pub samples: usize,
    // A number, as the calls take it: is_edition says which there are, and an enum of the two would be turned back at each call.
    pub edition: u8,
}

pub fn read_pair(words: &mut Words) -> Result<Pair, Wrong> {
    let first = words.place;
    let width = octet_of(usize::from(words.number(Name::Width)?));
    let second = words.place;
    let core = octet_of(usize::from(words.number(Name::Core)?));
    if is_pair(width, core) {
        return Ok(Pair { width, core });
    }
    Err(Wrong::NoPair(first, second))
}

// As the octet that a call takes; 255 where it is greater
pub fn octet_of(number: usize) -> u8
    ensures { result ≡ min number 255 }
{
    u8::try_from(number).unwrap_or(u8::MAX)
}

#[tactic(auto, unfolding(frame::specs::Header::most_groups))]
pub fn read_coding(words: &mut Words) -> Result<Coding, Wrong>
    ensures count { IfOk result (λ coding. IsTrue (is_count coding.edition coding.samples)) }
    ensures edition { IfOk result (λ coding. IsTrue (is_edition coding.edition)) }
{
    let speech = read_speech(words)?;
    let pair = read_pair(words)?;
    let place = words.place;
    let Some(count) = words.next_number() else {
        return Ok(Coding {
            speech,
            pair,
            samples: USUAL_SAMPLES,
            edition: PLAIN,
        });
    };
    let samples = usize::from(count);
    // Both editions take the same counts.
    if !is_count(PLAIN, samples) {
        return Err(Wrong::NoCount(place));
    }
    let edition = read_edition(words)?;
    Ok(Coding {
        speech,
        pair,
        samples,
        edition,
    })
}

fn read_edition(words: &mut Words) -> Result<u8, Wrong>
    ensures { IfOk result (λ edition. IsTrue (is_edition edition)) }
{
    let place = words.place;
    let edition = match words.next_number() {
        None => PLAIN,
        Some(number) => octet_of(usize::from(number)),
    };
    if is_edition(edition) {
        return Ok(edition);
    }
    Err(Wrong::NoEdition(place))
}
