// The predictor's coefficients: LIMC, LIMD, TRIGB, UPA1, UPA2, UPB and XOR (G.727, section 6.2.7). A
// coefficient wraps at the ends of its 16 bits and is never clamped there.
ghost use Rattle.std.specs.Prelude.{◌≡◌, ◌+◌, ◌/◌, ◌^◌, ◌<◌, ◌&&◌, leb};
ghost use Rattle.words.specs.Notation.{◌when◌∣◌};
ghost use Rattle.predictor.specs.Coefficient.{LIMC, LIMD, TRIGB, UL, UPA1, FA, UGA2, UPA2, UPB, XOR};

use words::choice::choose;
use words::wrap::{minus, plus};

#[tactic(auto, unfolding(crate::specs::Coefficient::LIMC))]
pub fn limc(a2t: u16) -> u16
    ensures { result ≡ LIMC a2t }
{
    limited(a2t, 53248, 12288)
}

#[tactic(auto, unfolding(crate::specs::Coefficient::LIMD))]
pub fn limd(a1t: u16, a2p: u16) -> u16
    ensures { result ≡ LIMD a1t a2p }
{
    let a1ul = minus(15360, a2p);
    let a1ll = minus(a2p, 15360);
    limited(a1t, a1ll, a1ul)
}

// A negative coefficient is held at the lower limit, and any other at the upper one
fn limited(t: u16, lower: u16, upper: u16) -> u16
    ensures { result ≡ (lower when leb 32768 t && leb t lower ∣ upper when leb upper t && leb t 32767 ∣ t) }
{
    choose(
        (32768..=lower).contains(&t),
        lower,
        choose((upper..=32767).contains(&t), upper, t),
    )
}

// TRIGA, of another crate and section, is this brace with another constant: each stands as it is printed.
pub fn trigb(tr: u16, anp: u16) -> u16
    ensures { result ≡ TRIGB tr anp }
{
    choose(tr == 0, anp, 0)
}

// The leak of A1, A2 and the six B
#[tactic(auto, unfolding(crate::specs::Coefficient::UL))]
fn ul(n: u32, sign: u16, a: u16) -> u16
    requires { (n < 16) × (a / 2 ^ n + sign < 65536) }
    ensures { result ≡ UL n sign a }
{
    choose(
        a >> 15 == 0,
        (a >> n).wrapping_neg(),
        ((a >> n) + sign).wrapping_neg(),
    )
}

#[tactic(auto, unfolding(crate::specs::Coefficient::UPA1))]
pub fn upa1(pk0: u16, pk1: u16, a1: u16, sigpk: u16) -> u16
    ensures { result ≡ UPA1 pk0 pk1 a1 sigpk }
{
    let pks = pk0 ^ pk1;
    let uga1 = choose(
        sigpk == 0,
        choose(pks == 0, 192, choose(pks == 1, 65344, 0)),
        0,
    );
    plus(a1, plus(uga1, ul(8, 65280, a1)))
}

// f(a1) = 4 a1, where a1 is held at plus and minus one half, with the sign of PKS1 attached
#[tactic(auto, unfolding(crate::specs::Coefficient::FA))]
fn fa(pks1: u16, a1: u16) -> u32
    ensures { result ≡ FA pks1 a1 }
{
    let w = u32::from(a1);
    let fa1 = choose(
        w >> 15 == 0,
        choose(w <= 8191, w * 4, 32764),
        choose(57345 <= w, w * 4 % 131072, 98308),
    );
    choose(pks1 == 1, fa1, (131072 - fa1) % 131072)
}

// The gain of 1/128. Narrowed by `as`, proved to lose nothing; TryFrom would add a failure that cannot come.
#[tactic(auto, unfolding(crate::specs::Coefficient::UGA2))]
fn uga2(uga2b: u32, sigpk: u16) -> u16
    requires { uga2b < 131072 }
    ensures { result ≡ UGA2 uga2b sigpk }
{
    let gain = (uga2b >> 7) as u16;
    let uga2s = uga2b >> 16;
    choose(sigpk == 0, choose(uga2s == 0, gain, gain + 64512), 0)
}

#[tactic(auto, using(crate::proofs::Range::fa_range), unfolding(crate::specs::Coefficient::UPA2))]
pub fn upa2(pk0: u16, pk1: u16, pk2: u16, a1: u16, a2: u16, sigpk: u16) -> u16
    ensures { result ≡ UPA2 pk0 pk1 pk2 a1 a2 sigpk }
{
    let uga2a = choose(pk0 ^ pk2 == 0, 16384, 114688);
    let gain = uga2((uga2a + fa(pk0 ^ pk1, a1)) % 131072, sigpk);
    let ula2 = ul(7, 65024, a2);
    plus(a2, plus(gain, ula2))
}

#[tactic(auto, unfolding(crate::specs::Coefficient::UPB))]
pub fn upb(un: u16, bn: u16, dq: u16) -> u16
    ensures { result ≡ UPB 14 un bn dq }
{
    let dqmag = dq % 16384;
    let ugbn = choose(
        dqmag == 0,
        0,
        choose(un == 0, 128, choose(un == 1, 65408, 0)),
    );
    plus(bn, plus(ugbn, ul(8, 65280, bn)))
}

#[tactic(auto, unfolding(crate::specs::Coefficient::XOR))]
pub fn xor(dqn: u16, dq: u16) -> u16
    ensures { result ≡ XOR 14 dqn dq }
{
    (dq >> 14) ^ (dqn >> 10)
}
