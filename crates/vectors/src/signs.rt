// The signs of the I-inputs (docs/SEQUENCES.md): eight subsequences, the same at every width. True is negative.
ghost use Rattle.std.specs.Prelude.{◌≡◌, ◌+◌, ◌≤◌};
ghost use Rattle.arrayvec.specs.ArrayVec.{array_vec_len};

use crate::magnitudes::PLACES;
use arrayvec::ArrayVec;

// The length of a subsequence
const PART: usize = 2048;

pub fn signs(signs: &mut ArrayVec<bool, PLACES>)
    ensures { array_vec_len signs.new ≡ 16384 }
{
    signs.clear();
    let mut short = Register::<64, 32>::new();
    let mut long = Register::<1024, 256>::new();
    add_part(signs, |_| false);
    add_part(signs, |_| true);
    add_part(signs, |n| n % 2 == 1);
    add_part(signs, |n| n / 2 % 2 == 1);
    add_part(signs, |n| n / 16 % 2 == 1);
    add_part(signs, |n| n % 3 == 0);
    add_part(signs, |_| short.sign());
    add_part(signs, |_| long.sign());
}

// A subsequence, by the sign at each of its places
fn add_part<F: FnMut(usize) -> bool>(signs: &mut ArrayVec<bool, PLACES>, mut sign: F)
    requires sign { F.IsAlwaysCallable sign }
    requires room { array_vec_len signs.old + 2048 ≤ 16384 }
    ensures { array_vec_len signs.new ≡ array_vec_len signs.old + 2048 }
{
    for n in 0..PART {
        signs.push(sign(n));
    }
}

// A shift register. A sign is where its highest bit and the tapped one differ, and comes in at its low end.
#[derive(Clone, Copy)]
struct Register<const HIGHEST: u16, const TAP: u16> {
    bits: u16,
}

impl<const HIGHEST: u16, const TAP: u16> Register<HIGHEST, TAP> {
    fn new() -> Self {
        Register { bits: 1 }
    }

    fn sign(&mut self) -> bool {
        let sign = (self.bits & HIGHEST != 0) != (self.bits & TAP != 0);
        self.bits = (self.bits & !HIGHEST) << 1 | u16::from(sign);
        sign
    }
}
