// A stream, and the forms that values have in it.
ghost use Rattle.std.specs.Prelude.{◌≡◌};
ghost use Rattle.streams.specs.declared.files.Stream.TheVariants.{Standard};

use streams::failure::Failure;
use streams::files;
use streams::files::opened;

// How values stand in a stream: an octet each, or as the text of a sequence
#[derive(Clone, Copy, PartialEq, Eq)]
pub enum Form {
    Octets,
    Text,
}

// Its values, and what is made of them, which is written nowhere while an end is homed. The word is HOMING's place, none for
// standard input.
#[derive(Drop)]
pub struct Stream {
    pub source: files::Stream,
    pub word: Option<usize>,
    pub from: Form,
    pub to: Option<Form>,
}

impl Stream {
    pub fn standard(from: Form, to: Form) -> Stream
        ensures forms { (result.from ≡ from) × (result.to ≡ Some to) }
        ensures source { (result.source ≡ Standard) × (result.word ≡ None) }
    {
        Stream {
            source: files::Stream::Standard,
            word: None,
            from,
            to: Some(to),
        }
    }

    pub fn homing(rt: &HostRuntime, word: usize) -> Result<Stream, Failure> {
        let source = opened(rt, word, "HOMING")?;
        Ok(Stream {
            source,
            word: Some(word),
            from: Form::Text,
            to: None,
        })
    }
}
