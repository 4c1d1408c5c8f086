// Planes: shifts and masks gather codeword bits into octets and take them out again. That b < 8 is asked for in three private functions: one bit
// of an octet, which a type of its own would only wrap.
ghost use Rattle.std.specs.Prelude.{◌≡◌, ◌++◌, ◌+◌, ◌*◌, ◌/◌, ◌%◌, ◌≤◌, ◌<◌, length, drop};
ghost use Rattle.frame.specs.Header.{group};
ghost use Rattle.frame.specs.Planes.{bit, gather, plane, planes};
ghost use Rattle.frame.specs.Read.{codeword_at};

use crate::header::GROUP;

// What is there, one place to the left, with bit b of c behind it
#[tactic(auto, using(crate::proofs::Gathering::shifted))]
fn shift_in(there: u8, b: u8, c: u8) -> u8
    requires { b < 8 }
    ensures { result ≡ (there * 2 + bit b c) % 256 }
{
    (there << 1) | ((c >> b) & 1)
}

// Bit b of the codewords of a group, the first in the most significant place
fn octet(codewords: &[u8; GROUP], b: u8) -> u8
    requires { b < 8 }
    ensures { result ≡ gather group b codewords.now 0 }
{
    codewords
        .iter()
        .fold(0, |there, codeword| shift_in(there, b, *codeword))
}

// The plane of bit b, an octet for each group of codewords. By index: of a zip with iter_mut the invariant has the places
// that were yielded, and not the buffer.
fn write_plane(codewords: &[u8], b: u8, out: &mut [u8])
    requires { (length out.old ≡ length codewords.now / group) × (b < 8) }
    ensures { out.new ≡ plane (length codewords.now / group) b codewords.now }
{
    for (j, eight) in codewords.as_chunks::<GROUP>().0.iter().enumerate() {
        out[j] = octet(eight, b);
    }
}

// The planes of x bits, the sign bits first. By index: of what is written through chunks_exact_mut a proof knows the length only, and g may be 0.
pub fn write_planes(codewords: &[u8], x: u8, out: &mut [u8])
    requires { (x * (length codewords.now / group) ≤ length out.old) × (x ≤ 8) }
    ensures { out.new ≡ planes (length codewords.now / group) x codewords.now ++ drop (x * (length codewords.now / group)) out.old }
{
    let g = codewords.len() / GROUP;
    for b in (0..x).rev() {
        let at = usize::from(x - 1 - b) * g;
        write_plane(codewords, b, &mut out[at..at + g]);
    }
}

// The codeword of sample k, from x planes of g octets. By index: one octet of each plane is read, and chunks or a step of g octets, which may be 0,
// say no plainer which.
pub fn codeword_at(body: &[u8], x: u8, g: usize, k: usize) -> u8
    requires { (x ≤ 8) × (k / group < g) × (x * g ≤ length body.now) }
    ensures { result ≡ codeword_at x g body.now k }
{
    // Narrowed by `as`, proved to lose nothing; TryFrom would add a failure that cannot come.
    let place = (7 - k % GROUP) as u8;
    let mut there = 0;
    for plane in 0..usize::from(x) {
        there = shift_in(there, place, body[plane * g + k / GROUP]);
    }
    there
}
