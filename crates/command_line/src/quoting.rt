// Lines on standard error that quote words of the call. A word's octets go out as they are, UTF-8 or not.
use crate::call_words::Word;
use arrayvec::ArrayVec;
use std::fmt::Display;
use std::io;
use std::io::Write;

// Octets of a word that are shown
const SHOWN: usize = 1000;

// Room for two of them and the usage
const ROOM: usize = 4096;

// Says the text, the words of these places in quotes, and the text behind them. It goes unheard where it cannot be written.
pub fn say_quoting<T: Display + Drop, U: Display + Drop>(
    rt: &HostRuntime,
    before: T,
    places: &[usize],
    behind: U,
) {
    if let Ok(line) = quoting(rt, before, places, behind) {
        let _ = rt.stderr().write_all(line.as_slice());
    }
}

fn quoting<T: Display + Drop, U: Display + Drop>(
    rt: &HostRuntime,
    before: T,
    places: &[usize],
    behind: U,
) -> io::Result<ArrayVec<u8, ROOM>> {
    let mut line = ArrayVec::new();
    write!(line, "{before}")?;
    let mut mark = "'";
    for place in places {
        write!(line, "{mark}")?;
        put_word(rt, &mut line, *place)?;
        mark = " ";
    }
    writeln!(line, "'{behind}")?;
    Ok(line)
}

fn put_word(rt: &HostRuntime, line: &mut ArrayVec<u8, ROOM>, place: usize) -> io::Result<()> {
    let Some(word) = Word::at(rt, place) else {
        return Ok(());
    };
    let octets = word.as_bytes();
    line.write_all(&octets[..octets.len().min(SHOWN)])
}
