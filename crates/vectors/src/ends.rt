// The states of both ends of a run, which a sample moves on.
ghost use Rattle.state.specs.InRange.{MemoryInRange};

use crate::runs::Run;
use sample::pcm::{decode_byte, encode_byte};
use state::State;

// A sequence has no frames, so no number is moved on.
#[derive(Clone, Copy)]
pub struct Ends {
    pub run: Run,
    pub encoder: State,
    pub decoder: State,
    ghost encoder_in_range: { MemoryInRange encoder.memory },
    ghost decoder_in_range: { MemoryInRange decoder.memory },
}

// The octet that the encoder was given, where there is one, its codeword, and what the decoder made of that
#[derive(Clone, Copy)]
pub struct Sample {
    pub input: Option<u8>,
    pub codeword: u8,
    pub octet: u8,
    pub disagreement: u8,
    pub decoder: State,
}

impl Ends {
    ghost use Rattle.std.specs.Prelude.{◌≡◌, Some};
    ghost use Rattle.quantizer.specs.Codeword.{Codeword};
    ghost use Rattle.state.specs.Reset.{reset_of};
    ghost use Rattle.vectors.specs.Ends.{coded_of, moved, sample_of};

    #[tactic(auto, using(state::proofs::Ranges::reset_memory_in_range), unfolding(state::specs::Reset::reset_of))]
    pub fn reset(run: Run) -> Ends
        ensures run { result.run ≡ run }
        ensures encoder { result.encoder ≡ reset_of run.core }
        ensures decoder { result.decoder ≡ reset_of run.core }
    {
        Ends {
            run,
            encoder: state::reset(run.core),
            decoder: state::reset(run.core),
        }
    }

    // An octet through both ends
    #[tactic(auto, using(sample::proofs::Tracks::encode_in_range, sample::proofs::Tracks::encode_codeword))]
    pub fn code(&mut self, octet: u8) -> Sample
        ensures run { self.new.run ≡ self.old.run }
        ensures encoder { self.new.encoder ≡ moved self.old.encoder (coded_of self.old.run self.old.encoder octet).memory }
        ensures decoder { self.new.decoder ≡ result.decoder }
        ensures sample { result ≡ sample_of self.old.run self.old.decoder (Some octet) (coded_of self.old.run self.old.encoder octet).codeword }
    {
        let run = self.run;
        let law = u8::from(run.laws.sent());
        let coded = encode_byte(self.encoder.memory, run.core, law, run.width, octet);
        self.encoder.memory = coded.memory;
        self.play(Some(octet), coded.codeword)
    }

    // A codeword to the decoder
    #[tactic(auto, using(sample::proofs::Tracks::play_in_range))]
    pub fn play(&mut self, input: Option<u8>, codeword: u8) -> Sample
        requires { Codeword self.old.run.width codeword }
        ensures run { self.new.run ≡ self.old.run }
        ensures encoder { self.new.encoder ≡ self.old.encoder }
        ensures decoder { self.new.decoder ≡ result.decoder }
        ensures sample { result ≡ sample_of self.old.run self.old.decoder input codeword }
    {
        let run = self.run;
        let law = u8::from(run.laws.heard());
        let played = decode_byte(self.decoder.memory, run.core, law, run.width, codeword);
        self.decoder.memory = played.memory;
        Sample {
            input,
            codeword,
            octet: played.sample,
            disagreement: played.disagreement,
            decoder: self.decoder,
        }
    }
}
