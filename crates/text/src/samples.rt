// Signed samples of 16 bits as pairs of octets, in two's complement.
ghost use Rattle.std.specs.Prelude.{◌≡◌, ◌*◌, ◌/◌, ◌≤◌, length, min, take};
ghost use Rattle.text.specs.Order.{sample_of, pair_of};

// Which octet of a pair comes first: the more significant one, or the other
#[derive(Clone, Copy)]
pub enum Order {
    HighFirst,
    LowFirst,
}

impl Order {
    fn sample_of(self, pair: [u8; 2]) -> i16
        ensures { result ≡ sample_of self pair }
    {
        match self {
            Order::HighFirst => i16::from_be_bytes(pair),
            Order::LowFirst => i16::from_le_bytes(pair),
        }
    }

    fn pair_of(self, sample: i16) -> [u8; 2]
        ensures { result ≡ pair_of self sample }
    {
        match self {
            Order::HighFirst => sample.to_be_bytes(),
            Order::LowFirst => sample.to_le_bytes(),
        }
    }
}

// The samples of the pairs, as many as there is room for
pub fn samples_in(octets: &[u8], order: Order, into: &mut [i16]) -> usize
    ensures room { (result ≤ length into.new) × (result ≡ length (take result into.new)) }
    ensures count { result ≡ min (length octets.now / 2) (length into.new) }
{
    let (pairs, _) = octets.as_chunks();
    for (sample, pair) in into.iter_mut().zip(pairs) {
        *sample = order.sample_of(*pair);
    }
    pairs.len().min(into.len())
}

// The pairs of the samples, as many as there is room for
pub fn octets_of(samples: &[i16], order: Order, into: &mut [u8]) -> usize
    ensures room { (result ≤ length into.new) × (result ≡ length (take result into.new)) }
    ensures count { result ≡ 2 * min (length samples.now) (length into.new / 2) }
{
    for (pair, sample) in into.chunks_exact_mut(2).zip(samples) {
        pair.copy_from_slice(&order.pair_of(*sample));
    }
    2 * samples.len().min(into.len() / 2)
}
