// The checksum of octets and of a state. docs/SEQUENCES.md says how it is computed; it stays below 4,294,967,291, and a
// list of no numbers has 0.
#![tactic(auto)]

ghost use Rattle.std.specs.Prelude.{◌≡◌};
ghost use Rattle.state.specs.Numbers.{numbers_of};
ghost use Rattle.checksum.specs.Checksum.{added, checksum_of};

use state::State;
use state::numbers::numbers;

// One number more. Narrowed by `as`, proved to lose nothing; TryFrom would add a failure that cannot come.
pub fn add(h: u32, v: u32) -> u32
    ensures { result ≡ added h v }
{
    ((u64::from(h) * 65599 + u64::from(v) + 1) % 4294967291) as u32
}

// Two folds of one line: a generic over what widens to 32 bits is longer.
pub fn of_state(s: State) -> u32
    ensures { result ≡ checksum_of (numbers_of s) }
{
    numbers(s).iter().fold(0, |h, v| add(h, *v))
}

pub fn of_octets(octets: &[u8]) -> u32
    ensures { result ≡ checksum_of octets.now }
{
    octets.iter().fold(0, |h, octet| add(h, u32::from(*octet)))
}
