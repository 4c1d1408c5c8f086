// The state as a list of numbers, in the order of the rules' table: what compares, sums, prints or packs a state goes over
// it, so that a new variable is named here once.
ghost use Rattle.std.specs.Prelude.{◌≡◌};
ghost use Rattle.state.specs.Numbers.{numbers_of, same_numbers};

use crate::State;

pub const NUMBERS: usize = 26;

#[tactic(auto, unfolding(crate::specs::Numbers::numbers_of))]
pub fn numbers(s: State) -> [u32; NUMBERS]
    ensures { result ≡ numbers_of s }
{
    let m = s.memory;
    let [b1, b2, b3, b4, b5, b6] = m.b;
    let [dq1, dq2, dq3, dq4, dq5, dq6] = m.dq;
    [
        u32::from(m.yu),
        m.yl,
        u32::from(m.dms),
        u32::from(m.dml),
        u32::from(m.ap),
        u32::from(m.a1),
        u32::from(m.a2),
        u32::from(b1),
        u32::from(b2),
        u32::from(b3),
        u32::from(b4),
        u32::from(b5),
        u32::from(b6),
        u32::from(dq1),
        u32::from(dq2),
        u32::from(dq3),
        u32::from(dq4),
        u32::from(dq5),
        u32::from(dq6),
        u32::from(m.sr1),
        u32::from(m.sr2),
        u32::from(m.pk1),
        u32::from(m.pk2),
        u32::from(m.td),
        u32::from(s.core),
        u32::from(s.number),
    ]
}

// By numbers: same_numbers, which docs/LAWS.md names, is of the lists.
#[tactic(auto, unfolding(crate::specs::Numbers::same_numbers))]
pub fn same_state(s: State, t: State) -> bool
    ensures { result ≡ same_numbers (numbers_of s) (numbers_of t) }
{
    numbers(s) == numbers(t)
}
