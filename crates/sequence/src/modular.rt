// The sum of values modulo 255, of which the remainder is made. An octet is narrowed by `as`, proved to lose nothing; TryFrom would add a failure that cannot come.
ghost use Rattle.std.specs.Prelude.{◌≡◌, ◌%◌};
ghost use Rattle.sequence.specs.Limits.{modulus, added};

use crate::limits::MODULUS;

// With one value more
pub fn added(sum: u8, value: u8) -> u8
    ensures { result ≡ added sum value }
{
    ((u16::from(sum) + u16::from(value)) % MODULUS) as u8
}

// Of a sum that anyone may have handed in
pub fn remainder_of(sum: u8) -> u8
    ensures { result ≡ sum % modulus }
{
    (u16::from(sum) % MODULUS) as u8
}
