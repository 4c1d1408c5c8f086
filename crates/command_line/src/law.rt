// LAW: how speech is coded where it is no frame. Linear samples have calls of their own, and of the two programs only the tool
// takes them.
ghost use Rattle.std.specs.Prelude.{◌≡◌, ◌⊎◌, IfErr, codes};
ghost use Rattle.command_line.specs.CallWords.{place_behind};

use crate::call_words::Words;
use crate::wrong::{Name, Wrong};
use text::law::Law;

#[derive(Clone, Copy)]
pub enum Speech {
    Companded(Law),
    Linear,
}

// Of the program that takes no linear samples
pub fn read_law(words: &mut Words) -> Result<Law, Wrong>
    ensures moves { words.new.place ≡ place_behind words.old.place }
    ensures wrong { IfErr result (λ wrong. (wrong ≡ Wrong.Missing Name.Law) ⊎ (wrong ≡ Wrong.NoLaw words.old.place)) }
{
    let place = words.place;
    match read_speech(words)? {
        Speech::Companded(law) => Ok(law),
        Speech::Linear => Err(Wrong::NoLaw(place)),
    }
}

pub fn read_speech(words: &mut Words) -> Result<Speech, Wrong>
    ensures moves { words.new.place ≡ place_behind words.old.place }
    ensures wrong { IfErr result (λ wrong. (wrong ≡ Wrong.Missing Name.Law) ⊎ (wrong ≡ Wrong.NoLaw words.old.place)) }
{
    let word = words.named(Name::Law)?;
    speech_named(word.as_bytes()).ok_or(Wrong::NoLaw(word.place))
}

fn speech_named(name: &[u8]) -> Option<Speech>
    ensures mu { name.now ≡ codes "mu" → result ≡ Some (Speech.Companded Law.Mu) }
    ensures a { name.now ≡ codes "a" → result ≡ Some (Speech.Companded Law.A) }
    ensures linear { name.now ≡ codes "linear" → result ≡ Some Speech.Linear }
    ensures none { result ≡ None ⊎ (name.now ≡ codes "mu") ⊎ (name.now ≡ codes "a") ⊎ (name.now ≡ codes "linear") }
{
    match name {
        b"mu" => Some(Speech::Companded(Law::Mu)),
        b"a" => Some(Speech::Companded(Law::A)),
        b"linear" => Some(Speech::Linear),
        _ => None,
    }
}
