// The lists are those of docs/SEQUENCES.md: the checksums of the I-inputs, the held codewords, and the names of the first
// and the last run.
use super::*;
use arrayvec::ArrayVec;
use checksum::of_octets;
use codewords::{CodewordWidth, held, i_input};
use magnitudes::magnitudes;
use signs::signs;

#[test]
fn i_inputs_and_their_parts(rt: HostRuntime) {
    let mut sizes = ArrayVec::new();
    magnitudes(&mut sizes);
    assert!(rt; sizes[1536..2048].iter().all(|m| *m == 1));
    assert!(rt; sizes[16352..16368].iter().all(|m| *m == 1));
    assert!(rt; sizes[16368..].iter().all(|m| *m == 6));
    let mut negatives = ArrayVec::new();
    signs(&mut negatives);
    for (sign, digit) in negatives[12288..].iter().zip(b"000001100001010001") {
        assert_eq!(rt; *sign, *digit == b'1');
    }
    for bits in 2..=5 {
        let sum = match bits {
            2 => 2310871742,
            3 => 1990077410,
            4 => 2359295271,
            _ => 284301274,
        };
        let mut codewords = ArrayVec::new();
        i_input(&mut codewords, CodewordWidth { bits });
        assert_eq!(rt; of_octets(&codewords), sum, "at {bits}");
    }
}

#[test]
fn held_codewords_and_runs(rt: HostRuntime) {
    for (bits, codeword) in [(2, 1), (3, 3), (4, 7)] {
        let codewords = held(CodewordWidth { bits });
        assert_eq!(rt; codewords.len(), 2000, "at {bits}");
        assert!(rt; codewords.iter().all(|held| *held == codeword), "at {bits}");
    }
    let runs = all_runs();
    assert_eq!(rt; runs.len(), 189);
    assert!(rt; is_named(&runs[0], b"RN52_M"));
    assert!(rt; is_named(&runs[188], b"HELD44_M"));
}
