// Hexadecimal digits as characters, in either case of letter.
ghost use Rattle.std.specs.Prelude.{IsTrue, SomeIff};
ghost use Rattle.sequence.specs.Digits.{digit_of, is_digit};

#[tactic(auto, using(crate::proofs::Characters::digit_as_core))]
pub fn digit_of(character: u8) -> Option<u8>
    ensures { SomeIff result (IsTrue (is_digit character)) (digit_of character) }
{
    let digit = char::from(character).to_digit(16)?;
    // Narrowed by `as`, proved to lose nothing; TryFrom would add a failure that cannot come.
    Some(digit as u8)
}
