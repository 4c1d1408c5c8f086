// Values through the codec: PCM octets become codewords, codewords become PCM octets.
ghost use Rattle.std.specs.Prelude.{◌≡◌, ◌^◌, ◌<◌, SomeIff, nat_lt, if◌then◌else◌};
ghost use Rattle.quantizer.specs.Codeword.{Width};
ghost use Rattle.sequence_tool.specs.Ends.{encoded, heard};
ghost use Rattle.state.specs.InRange.{MemoryInRange};
ghost use Rattle.state.specs.Reset.{reset_memory};

use command_line::coding::Pair;
use sample::pcm::{decode_byte, encode_byte};
use state::memory::{Memory, reset_memory};
use text::law::Law;

// The law, the pair, and the memories of both ends
#[derive(Clone, Copy)]
pub struct Codec {
    law: Law,
    pair: Pair,
    encoder: Memory,
    decoder: Memory,
    ghost encoder_in_range: { MemoryInRange encoder },
    ghost decoder_in_range: { MemoryInRange decoder },
}

impl Codec {
    // From reset
    #[tactic(auto, using(state::proofs::Ranges::reset_memory_in_range))]
    pub fn new(law: Law, pair: Pair) -> Codec
        ensures law { result.law ≡ law }
        ensures pair { result.pair ≡ pair }
        ensures encoder { result.encoder ≡ reset_memory }
        ensures decoder { result.decoder ≡ reset_memory }
    {
        let reset = reset_memory();
        Codec {
            law,
            pair,
            encoder: reset,
            decoder: reset,
        }
    }

    // The codeword of an octet
    #[tactic(auto, using(quantizer::proofs::Pairs::pair_says, sample::proofs::Tracks::encode_in_range))]
    pub fn encode(&mut self, octet: u8) -> u8
        ensures codeword { result ≡ (encoded self.old.law self.old.pair self.old.encoder octet).codeword }
        ensures encoder { self.new.encoder ≡ (encoded self.old.law self.old.pair self.old.encoder octet).memory }
        ensures rest { (self.new.law ≡ self.old.law) × (self.new.pair ≡ self.old.pair) × (self.new.decoder ≡ self.old.decoder) }
    {
        let Pair { width, core } = self.pair;
        let encoded = encode_byte(self.encoder, core, u8::from(self.law), width, octet);
        self.encoder = encoded.memory;
        encoded.codeword
    }

    // The octet of a value, where that is a codeword of the width
    #[tactic(auto, using(quantizer::proofs::Pairs::pair_says, quantizer::proofs::Pairs::pair_width, sample::proofs::Tracks::play_in_range))]
    pub fn decode(&mut self, value: u8) -> Option<u8>
        ensures octet { SomeIff result (value < 2 ^ self.old.pair.width) (heard self.old.law self.old.pair self.old.decoder value).sample }
        ensures decoder { self.new.decoder ≡ (if nat_lt value (2 ^ self.old.pair.width) then (heard self.old.law self.old.pair self.old.decoder value).memory else self.old.decoder) }
        ensures rest { (self.new.law ≡ self.old.law) × (self.new.pair ≡ self.old.pair) × (self.new.encoder ≡ self.old.encoder) }
    {
        let Pair { width, core } = self.pair;
        if count_codewords(width) <= value {
            return None;
        }
        let played = decode_byte(self.decoder, core, u8::from(self.law), width, value);
        self.decoder = played.memory;
        Some(played.sample)
    }
}

fn count_codewords(width: u8) -> u8
    requires { Width width }
    ensures { result ≡ 2 ^ width }
{
    1u8 << width
}
