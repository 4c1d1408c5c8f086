// IN and OUT, the last words, and that no file is written that another word names.
use crate::call_words::{Word, Words};
use crate::wrong::Wrong;

// The places of their words, none for the standard streams
#[derive(Clone, Copy)]
pub struct Ends {
    pub input: Option<usize>,
    pub output: Option<usize>,
}

// Nothing may stand behind them.
pub fn read_ends(words: &mut Words) -> Result<Ends, Wrong> {
    let input = read_end(words)?;
    let output = read_end(words)?;
    words.end()?;
    Ok(Ends { input, output })
}

fn read_end(words: &mut Words) -> Result<Option<usize>, Wrong> {
    if words.is_at_end() || words.skip_if(b"-") {
        return Ok(None);
    }
    Ok(Some(words.file()?))
}

// Two words may name one file only where it is read by both.
pub fn are_apart(
    rt: &HostRuntime,
    written: Option<usize>,
    other: Option<usize>,
) -> Result<(), Wrong> {
    match (written, other) {
        (Some(i), Some(j)) if are_same(rt, i, j) => Err(Wrong::TwoForOneFile(i)),
        _ => Ok(()),
    }
}

fn are_same(rt: &HostRuntime, i: usize, j: usize) -> bool {
    match (Word::at(rt, i), Word::at(rt, j)) {
        (Some(first), Some(second)) => first.as_bytes() == second.as_bytes(),
        _ => false,
    }
}
