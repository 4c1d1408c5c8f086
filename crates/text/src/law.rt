// A law of G.711, as the words of a call and the names of test sequences say it.
ghost use Rattle.std.specs.Prelude.{◌≡◌};
ghost use Rattle.text.specs.Law.{law_number};

#[derive(Clone, Copy)]
pub enum Law {
    Mu,
    A,
}

// The number that the calls take
impl From<Law> for u8 {
    ghost from_gives = { λ law number. number ≡ law_number law };

    fn from(law: Law) -> u8 {
        match law {
            Law::Mu => 0,
            Law::A => 1,
        }
    }
}
