// Sums and differences modulo 65,536, as the predictor's sub-blocks keep them (G.727, section 6.2.7). They stay functions beside std's
// methods, for sums and differences of two words: docs/AUDIT.md names this file for the rule that these wrap.
ghost use Rattle.std.specs.Prelude.{◌≡◌, ◌+◌, ◌-◌, ◌%◌};

// `(a + b) & 65535`
pub fn plus(a: u16, b: u16) -> u16
    ensures { result ≡ (a + b) % 65536 }
{
    a.wrapping_add(b)
}

// `(a + 65536 - b) & 65535`
pub fn minus(a: u16, b: u16) -> u16
    ensures { result ≡ (a + 65536 - b) % 65536 }
{
    a.wrapping_sub(b)
}
