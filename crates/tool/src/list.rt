// drop -list FILE: a width for each frame, one digit each, with spaces, tabs and line ends between.
ghost use Rattle.std.specs.Prelude.{◌<◌, IfOk, IfSome, length};
ghost use Rattle.tool.specs.Widths.{AreWidths, IsWidth};

use crate::stop::{ListFault, Stop};
use command_line::cutting::is_width;
use streams::files::opened;
use streams::reading::read_full;

// The octets of a task's widths, and of the text before them. A list that fills it is too long, since more of it might follow.
pub const LIST_ROOM: usize = 65536;

// The widths of the file of the word there: one at least. The room has its text first, and then them.
pub fn read_list<'a>(
    rt: &HostRuntime,
    place: usize,
    room: &'a mut [u8; LIST_ROOM],
) -> Result<&'a [u8], Stop>
    ensures widths { IfOk result (λ widths. AreWidths widths.now) }
    ensures some { IfOk result (λ widths. 0 < length widths.now) }
{
    let stream = opened(rt, place, "the list")?;
    let count = read_full(rt, &stream, room)?;
    if count == LIST_ROOM {
        return Err(Stop::List(place, ListFault::TooLong));
    }
    widths_in(place, &mut room[..count])
}

// In place, at the text's start: a width stands no later than its digit did. So no iterator goes over the text, which it would lend.
fn widths_in(place: usize, text: &mut [u8]) -> Result<&[u8], Stop>
    ensures widths { IfOk result (λ widths. AreWidths widths.now) }
    ensures some { IfOk result (λ widths. 0 < length widths.now) }
{
    let mut count = 0;
    let mut line = 1;
    let mut apart = true;
    for i in 0..text.len() {
        let octet = text[i];
        let between = matches!(octet, b' ' | b'\t' | b'\r' | b'\n');
        if !between {
            match width_in(octet) {
                // Only a word's first octet stands apart.
                Some(width) if apart => {
                    text[count] = width;
                    count += 1;
                }
                _ => return Err(Stop::List(place, ListFault::Line(line))),
            }
        }
        apart = between;
        if octet == b'\n' {
            line = line.saturating_add(1);
        }
    }
    if count == 0 {
        return Err(Stop::List(place, ListFault::NoWidth));
    }
    Ok(&text[..count])
}

// Of a digit
fn width_in(octet: u8) -> Option<u8>
    ensures { IfSome result IsWidth }
{
    let digit = char::from(octet).to_digit(10)?;
    let width = u8::try_from(digit).ok()?;
    is_width(width).then_some(width)
}

// `read_list` alone takes no part: a test has no word of a call that would name a file.
#[cfg(test)]
mod tests {
    use super::*;
    use crate::making::Work;
    use command_line::Command;
    use command_line::cutting::{Cut, Widths};

    #[test]
    fn widths_are_read_and_kept(rt: HostRuntime) {
        let mut text = *b"3 2\n5\t4";
        let listed = widths_in(0, &mut text);
        assert!(rt; matches!(listed, Ok(widths) if widths == [3, 2, 5, 4].as_slice()));
        let mut text = *b"3\n23";
        let wrong = widths_in(0, &mut text);
        assert!(rt; matches!(wrong, Err(Stop::List(0, ListFault::Line(2)))));
        let cut = Cut {
            most: true,
            widths: Widths::One(3),
        };
        let mut room = [0; LIST_ROOM];
        let work = Work::of(&rt, Command::Drop(cut), &mut room);
        assert!(rt;
            matches!(work, Ok(Work::Drop { most: true, widths }) if widths == [3].as_slice())
        );
    }
}
