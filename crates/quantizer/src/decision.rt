// QUAN (G.727, section 6.2.2): the thresholds of Tables 8 to 11 by width, and the codeword that a value
// falls into. The count goes once through an array of at most fifteen, and the compiler unrolls it.
ghost use Rattle.std.specs.Prelude.{◌≡◌, ◌<◌, ◌≤◌, length};
ghost use Rattle.quantizer.specs.Decision.{QUAN};
ghost use Rattle.quantizer.specs.Threshold.{offset, reached, coded};

// The least DLN of each row of the sign 0, from I = 1 upwards. From 2,048 on a value is negative.
const LEVELS_2: [u16; 1] = [261];

const LEVELS_3: [u16; 3] = [123, 261, 356];

const LEVELS_4: [u16; 7] = [4089, 123, 202, 261, 310, 356, 405];

const LEVELS_5: [u16; 15] = [
    3961, 4089, 69, 123, 166, 202, 233, 261, 286, 310, 333, 356, 380, 405, 439,
];

pub fn quan(width: u8, dln: u16, ds: u16) -> u8
    requires { (dln < 4096) × (ds < 2) }
    ensures { result ≡ QUAN width dln ds }
{
    match width {
        2 => codeword_of(&LEVELS_2, dln, ds),
        3 => codeword_of(&LEVELS_3, dln, ds),
        4 => codeword_of(&LEVELS_4, dln, ds),
        _ => codeword_of(&LEVELS_5, dln, ds),
    }
}

#[tactic(auto, using(crate::proofs::Thresholds::reached_within), unfolding(crate::specs::Threshold::coded))]
fn codeword_of(levels: &[u16], dln: u16, ds: u16) -> u8
    requires { length levels.now ≤ 15 }
    ensures { result ≡ coded levels.now dln ds }
{
    let m = count_reached(levels, dln);
    if ds == 0 {
        m
    } else {
        // Narrowed by `as`, proved to lose nothing; TryFrom would add a failure that cannot come.
        (2 * levels.len() + 1) as u8 - m
    }
}

fn count_reached(levels: &[u16], dln: u16) -> u8
    requires { length levels.now ≤ 15 }
    ensures { result ≡ reached levels.now dln }
{
    let value = offset_of(dln);
    // By `filter` and `count` a sample took 129 instructions more at width 5, a tenth of all that it takes (docs/PERFORMANCE.md).
    let mut n = 0;
    for level in levels {
        if offset_of(*level) <= value {
            n += 1;
        }
    }
    n
}

// In 32 bits, where no word's sum wraps.
fn offset_of(v: u16) -> u32
    ensures { result ≡ offset v }
{
    (u32::from(v) + 2048) % 4096
}
