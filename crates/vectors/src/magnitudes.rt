// The magnitudes of the I-inputs at width 4, Table 9 of the ITU's description, and what they become at the other widths.
ghost use Rattle.std.specs.Prelude.{◌≡◌, ◌-◌, ◌*◌, ◌/◌, ◌^◌, ◌<◌, All};
ghost use Rattle.arrayvec.specs.ArrayVec.{array_vec_len};

use crate::codewords::CodewordWidth;
use arrayvec::ArrayVec;

// How many places an I-input has
pub const PLACES: usize = 16384;

// In each row sixteen times one magnitude and sixteen times the other in turn, and the row's length
const ROWS: [(u8, u8, usize); 27] = [
    (0, 0, 1024),
    (0, 1, 512),
    (1, 1, 512),
    (1, 2, 512),
    (2, 2, 512),
    (2, 3, 256),
    (3, 3, 1024),
    (3, 4, 512),
    (4, 4, 512),
    (4, 5, 512),
    (5, 5, 512),
    (5, 6, 256),
    (6, 6, 1024),
    (6, 7, 256),
    (7, 7, 1024),
    (6, 6, 1024),
    (5, 5, 1024),
    (5, 4, 512),
    (4, 3, 512),
    (3, 3, 512),
    (2, 2, 1024),
    (2, 1, 512),
    (1, 0, 512),
    (0, 0, 1024),
    (5, 7, 256),
    (2, 7, 256),
    (1, 6, 256),
];

pub fn magnitudes(magnitudes: &mut ArrayVec<u8, PLACES>)
    ensures small { All (λ m. m < 8) magnitudes.new.items }
    ensures count { array_vec_len magnitudes.new ≡ 16384 }
{
    magnitudes.clear();
    for (one, other, length) in &ROWS {
        for place in 0..*length {
            magnitudes.push(if place / 16 % 2 == 0 { *one } else { *other });
        }
    }
}

pub fn at_width(width: CodewordWidth, magnitude: u8) -> u8
    requires { magnitude < 8 }
    ensures value { result ≡ magnitude * 2 ^ (width.bits - 1) / 8 }
    ensures short { result < 2 ^ (width.bits - 1) }
{
    match width.bits {
        5 => 2 * magnitude,
        4 => magnitude,
        3 => magnitude / 2,
        _ => magnitude / 4,
    }
}
