// RECONST (G.727, section 6.2.4): the output levels of Tables 12 to 15 by width.
ghost use Rattle.std.specs.Prelude.{◌≡◌};
ghost use Rattle.quantizer.specs.Codeword.{Codeword};
ghost use Rattle.quantizer.specs.Table.{output};
ghost use Rattle.quantizer.specs.Output.{outputs, RECONST};

use crate::Quantized;
use crate::codeword::magnitude;

// DQLN from the magnitude 0 upwards
const OUTPUTS_2: [u16; 2] = [116, 365];

const OUTPUTS_3: [u16; 4] = [4085, 199, 307, 395];

const OUTPUTS_4: [u16; 8] = [3961, 68, 165, 232, 285, 332, 377, 428];

const OUTPUTS_5: [u16; 16] = [
    3832, 4035, 34, 97, 145, 184, 217, 246, 273, 298, 321, 344, 367, 391, 419, 456,
];

#[tactic(auto, unfolding(crate::specs::Output::RECONST))]
pub fn reconst(width: u8, i: u8) -> Quantized
    requires { Codeword width i }
    ensures { result ≡ RECONST width i }
{
    Quantized {
        dqs: u16::from(i >> (width - 1)),
        dqln: dqln_of(width, i),
    }
}

// Not entry_of: RECONST has a row for width 5, FUNCTW and FUNCTF have none.
#[tactic(auto, using(crate::proofs::Halves::magnitude_small))]
fn dqln_of(width: u8, i: u8) -> u16
    requires { Codeword width i }
    ensures { result ≡ output (outputs width) i }
{
    let m = usize::from(magnitude(width, i));
    match width {
        2 => OUTPUTS_2[m],
        3 => OUTPUTS_3[m],
        4 => OUTPUTS_4[m],
        _ => OUTPUTS_5[m],
    }
}
