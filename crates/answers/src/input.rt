// The lines of the input, each without its end, in a window that holds the longest of them and its end. The window is filled before a line
// in it is given, and all lines in it are given before more is read: whoever writes a window of lines can leave the answers for later.
ghost use Rattle.std.specs.Prelude.{◌≡◌, ◌-◌, ◌≤◌, ◌↔◌, length, IsTrue};

use crate::unanswered::Unanswered;
use memchr::memchr;
use std::io::Read;

// In characters
const LONGEST: usize = 131072;

pub const ROOM: usize = LONGEST + 1;

#[derive(Drop)]
pub struct Lines<'a, R> {
    input: R,
    window: &'a mut [u8],
    // What is held and not yet given stands from index `from` to index `to`
    from: usize,
    to: usize,
    // Whether there may be more to read
    more: bool,
    ghost held: { (from ≤ to) × (to ≤ length window.now) },
}

impl<'a, R: Read> Lines<'a, R> {
    pub fn of(input: R, window: &'a mut [u8; ROOM]) -> Lines<'a, R> {
        Lines {
            input,
            window,
            from: 0,
            to: 0,
            more: true,
        }
    }

    // Behind the last line's end there is no line. Where a read fails, what was read stands as if the input had ended.
    pub fn next(&mut self) -> Option<Result<&[u8], Unanswered>> {
        let (end, long) = self.end_of_line();
        let from = self.from;
        let is_line = from < end || end < self.to || long;
        self.from = self.to.min(end + 1);
        if !is_line {
            return None;
        }
        if long {
            return Some(Err(Unanswered::TooLong));
        }
        let window = &*self.window;
        Some(Ok(&window[from..end]))
    }

    // The index of the first line's end, or of the end of what is held where the input has ended, and whether the line began before the
    // window. A proved loop has to end, and nothing says that a line does: no run reaches the last turn.
    fn end_of_line(&mut self) -> (usize, bool)
        ensures { (self.new.from ≤ result.0) × (result.0 ≤ self.new.to) }
    {
        let mut long = false;
        for _ in 1..u64::MAX {
            let (from, to) = (self.from, self.to);
            let window = &*self.window;
            let held = &window[from..to];
            match memchr(b'\n', held) {
                Some(n) => return (from + n, long),
                None if !self.more => break,
                None => long = self.refill() || long,
            }
        }
        (self.to, long)
    }

    // More of the input behind what is held. A full window holds no line's end, so its line is too long and is let go; answers whether it was.
    fn refill(&mut self) -> bool
        ensures full { IsTrue result ↔ (self.old.to - self.old.from ≡ length self.old.window.now) }
        ensures let_go { IsTrue result → self.new.from ≡ self.new.to }
    {
        let (from, to) = (self.from, self.to);
        let held = to - from;
        if held == self.window.len() {
            self.from = to;
            return true;
        }
        self.window.copy_within(from..to, 0);
        let count = read_full(&mut self.input, &mut self.window[held..]);
        self.from = 0;
        self.to = held + count;
        self.more = self.to == self.window.len();
        false
    }
}

// Fills the part, or as much of it as there is before the input ends or a read fails, and counts that
fn read_full<R: Read>(input: &mut R, part: &mut [u8]) -> usize
    ensures { result ≤ length part.new }
{
    let mut done = 0;
    while done < part.len() {
        match input.read(&mut part[done..]) {
            Ok(0) | Err(_) => break,
            Ok(more) => done += more,
        }
    }
    done
}
