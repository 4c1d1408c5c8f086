// The 189 runs of docs/SEQUENCES.md in its order: all R, then all H, then the jumps, then the held codeword. Within R and
// H the inputs N, V and I, within these the pairs, within a pair the laws M, A, C and X, or M and A.
ghost use Rattle.std.specs.Prelude.{◌≡◌, ◌+◌, ◌*◌, ◌≤◌, length};
ghost use Rattle.arrayvec.specs.ArrayVec.{array_vec_len};
ghost use Rattle.quantizer.specs.Pair.{Pair};
ghost use Rattle.vectors.specs.Runs.{laws_count};

use crate::laws::Laws;
use arrayvec::ArrayVec;

const RUNS: usize = 189;

#[derive(Clone, Copy)]
pub enum Kind {
    Normal,
    Overload,
    Codewords,
    Jump,
    Held,
}

impl Kind {
    // Those of its sequences at a pair, in their order
    fn laws(self) -> &'static [Laws]
        ensures { length result.now ≡ laws_count self }
    {
        match self {
            Kind::Normal | Kind::Overload => &[Laws::Mu, Laws::A, Laws::MuToA, Laws::AToMu],
            Kind::Codewords | Kind::Jump => &[Laws::Mu, Laws::A],
            Kind::Held => &[Laws::Mu],
        }
    }
}

#[derive(Clone, Copy)]
pub struct Run {
    pub homed: bool,
    pub kind: Kind,
    pub width: u8,
    pub core: u8,
    pub laws: Laws,
    ghost is_pair: { Pair width core },
}

// The list's first, as the blank that it is made of
impl Default for Run {
    fn default() -> Run {
        Run {
            homed: false,
            kind: Kind::Normal,
            width: 5,
            core: 2,
            laws: Laws::Mu,
        }
    }
}

// The nine pairs in their order, each as its width and its core
const PAIRS: [(u8, u8); 9] = [
    (5, 2),
    (4, 2),
    (3, 2),
    (2, 2),
    (5, 3),
    (4, 3),
    (3, 3),
    (5, 4),
    (4, 4),
];

pub fn all_runs() -> ArrayVec<Run, RUNS>
    ensures { array_vec_len result ≡ 189 }
{
    let mut runs = ArrayVec::new();
    for homed in [false, true] {
        for kind in [Kind::Normal, Kind::Overload, Kind::Codewords] {
            add_pairs(&mut runs, homed, kind);
        }
    }
    for core in 2..=4 {
        add_laws(&mut runs, false, Kind::Jump, 5, core);
    }
    for core in 2..=4 {
        add_laws(&mut runs, false, Kind::Held, core, core);
    }
    runs
}

fn add_pairs(runs: &mut ArrayVec<Run, RUNS>, homed: bool, kind: Kind)
    requires { array_vec_len runs.old + 9 * laws_count kind ≤ 189 }
    ensures { array_vec_len runs.new ≡ array_vec_len runs.old + 9 * laws_count kind }
{
    for (width, core) in PAIRS {
        add_laws(runs, homed, kind, width, core);
    }
}

fn add_laws(runs: &mut ArrayVec<Run, RUNS>, homed: bool, kind: Kind, width: u8, core: u8)
    requires pair { Pair width core }
    requires room { array_vec_len runs.old + laws_count kind ≤ 189 }
    ensures { array_vec_len runs.new ≡ array_vec_len runs.old + laws_count kind }
{
    for laws in kind.laws() {
        runs.push(Run {
            homed,
            kind,
            width,
            core,
            laws: *laws,
        });
    }
}
