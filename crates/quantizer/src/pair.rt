// Which numbers of bits, in all and in the core, make one of the nine pairs (section 3).
ghost use Rattle.std.specs.Prelude.{◌≡◌};
ghost use Rattle.quantizer.specs.Pair.{is_pair};

pub fn is_pair(width: u8, core: u8) -> bool
    ensures { result ≡ is_pair width core }
{
    (2..=4).contains(&core) && (core..=5).contains(&width)
}
