// The words of drop: [-most] WIDTH, or [-most] -list FILE.
ghost use Rattle.std.specs.Prelude.{◌≡◌, IfOk};
ghost use Rattle.quantizer.specs.Pair.{is_pair};
ghost use Rattle.command_line.specs.Cutting.{AreWidths};

use crate::call_words::Words;
use crate::coding::octet_of;
use crate::wrong::{Name, Wrong};
use quantizer::pair::is_pair;

// Beside it every width is a pair's.
const LEAST_CORE: u8 = 2;

// Of each frame, or of each in turn by the list whose file's word stands there
#[derive(Clone, Copy)]
pub enum Widths {
    One(u8),
    Listed(usize),
}

#[derive(Clone, Copy)]
pub struct Cut {
    pub most: bool,
    pub widths: Widths,
}

pub fn is_width(width: u8) -> bool
    ensures { result ≡ is_pair width 2 }
{
    is_pair(width, LEAST_CORE)
}

pub fn read_cut(words: &mut Words) -> Result<Cut, Wrong>
    ensures { IfOk result (λ cut. AreWidths cut.widths) }
{
    let most = words.skip_if(b"-most");
    let widths = read_widths(words)?;
    Ok(Cut { most, widths })
}

fn read_widths(words: &mut Words) -> Result<Widths, Wrong>
    ensures { IfOk result AreWidths }
{
    if words.skip_if(b"-list") {
        return Ok(Widths::Listed(words.file()?));
    }
    let place = words.place;
    let width = octet_of(usize::from(words.number(Name::Width)?));
    if is_width(width) {
        return Ok(Widths::One(width));
    }
    Err(Wrong::NoWidth(place))
}
