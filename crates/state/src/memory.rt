// What the delay blocks of both ends hold from sample to sample: the delayed variables of Table 7/G.727. A struct by
// value: a step takes one and hands the next one back.
ghost use Rattle.std.specs.Prelude.{◌≡◌};
ghost use Rattle.std.specs.List.{list_all};
ghost use Rattle.words.specs.Within.{within};
ghost use Rattle.state.specs.Reset.{reset_memory};
ghost use Rattle.state.specs.Range.{is_float_word, adaptation_in_range, signals_in_range, memory_in_range};

#[derive(Clone, Copy, PartialEq, Eq, Debug)]
pub struct Memory {
    pub yu: u16,
    pub yl: u32,
    pub dms: u16,
    pub dml: u16,
    pub ap: u16,
    pub a1: u16,
    pub a2: u16,
    // Two arrays of six, as the rules ask (docs/RULES.md).
    pub b: [u16; 6],
    pub dq: [u16; 6],
    pub sr1: u16,
    pub sr2: u16,
    // Bits are 16-bit words: operands of exclusive ors, and any number may be handed in.
    pub pk1: u16,
    pub pk2: u16,
    pub td: u16,
}

#[tactic(auto, unfolding(crate::specs::Reset::reset_memory))]
pub fn reset_memory() -> Memory
    ensures { result ≡ reset_memory }
{
    Memory {
        yu: 544,
        yl: 34816,
        dms: 0,
        dml: 0,
        ap: 0,
        a1: 0,
        a2: 0,
        b: [0; 6],
        dq: [32; 6],
        sr1: 32,
        sr2: 32,
        pk1: 0,
        pk2: 0,
        td: 0,
    }
}

// The rules' table of ranges. A1, A2 and B1 to B6 may be any 16-bit word, so they have no test.
#[tactic(auto, unfolding(crate::specs::Range::memory_in_range, words::specs::Every::every))]
pub fn memory_in_range(m: Memory) -> bool
    ensures { result ≡ memory_in_range m }
{
    adaptation_in_range(m) && signals_in_range(m)
}

// Rows YU to AP
#[tactic(auto, unfolding(crate::specs::Range::adaptation_in_range, words::specs::Every::every))]
fn adaptation_in_range(m: Memory) -> bool
    ensures { result ≡ adaptation_in_range m }
{
    (544..=5120).contains(&m.yu)
        && (34816..=327680).contains(&m.yl)
        && (0..=3584).contains(&m.dms)
        && (0..=14336).contains(&m.dml)
        && (0..=512).contains(&m.ap)
}

// Rows DQ1 to TD
#[tactic(auto, using(crate::proofs::Ranges::six_float_words), unfolding(crate::specs::Range::signals_in_range, words::specs::Every::every))]
fn signals_in_range(m: Memory) -> bool
    ensures { result ≡ signals_in_range m }
{
    float_words(m.dq)
        && is_float_word(15, m.sr1)
        && is_float_word(15, m.sr2)
        && is_bit(m.pk1)
        && is_bit(m.pk2)
        && is_bit(m.td)
}

#[tactic(auto, unfolding(crate::specs::Range::is_float_word, words::specs::Every::every))]
fn is_float_word(most: u16, w: u16) -> bool
    ensures { result ≡ is_float_word most w }
{
    w < 2048 && (w >> 6) % 16 <= most && 32 <= w % 64
}

fn is_bit(w: u16) -> bool
    ensures { result ≡ within 0 1 w }
{
    w <= 1
}

fn float_words(dq: [u16; 6]) -> bool
    ensures { result ≡ list_all (λ w. is_float_word 14 w) dq }
{
    dq.iter().all(|w| is_float_word(14, *w))
}
