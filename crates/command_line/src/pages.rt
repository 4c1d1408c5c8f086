// The help, the version and the usage of each program, and that a program writes such a page or performs its task. The version is
// that of the file VERSION, the kit's line that of KIT.
use crate::call_words::Words;
use crate::program::Program;
use crate::status::Status;
use crate::wrong::Wrong;
use std::io;

#[derive(Clone, Copy)]
enum Page {
    Help,
    Version,
}

// The page that the first word asks for, which stands alone
fn read_page(rt: &HostRuntime) -> Result<Option<Page>, Wrong> {
    let mut words = Words::new(rt);
    let Some(page) = page_of(&mut words) else {
        return Ok(None);
    };
    words.end()?;
    Ok(Some(page))
}

fn page_of(words: &mut Words) -> Option<Page> {
    if words.skip_if(b"--help") {
        return Some(Page::Help);
    }
    if words.skip_if(b"--version") {
        return Some(Page::Version);
    }
    None
}

// Does what the words ask, and answers the status that a program ends with: the page is written, or the task is read and
// performed. Where they are wrong, that is said.
pub fn run<
    T: Drop,
    R: FnOnce(&HostRuntime) -> Result<T, Wrong> + Drop,
    P: FnOnce(&HostRuntime, T) -> Status + Drop,
>(rt: &HostRuntime, program: Program, read: R, perform: P) -> Status
    requires can_read { R.IsAlwaysCallable read }
    requires can_perform { P.IsAlwaysCallable perform }
{
    match try_run(rt, program, read, perform) {
        Ok(status) => status,
        Err(wrong) => {
            wrong.say(rt, program);
            Status::WrongWords
        }
    }
}

fn try_run<
    T: Drop,
    R: FnOnce(&HostRuntime) -> Result<T, Wrong> + Drop,
    P: FnOnce(&HostRuntime, T) -> Status + Drop,
>(rt: &HostRuntime, program: Program, read: R, perform: P) -> Result<Status, Wrong>
    requires can_read { R.IsAlwaysCallable read }
    requires can_perform { P.IsAlwaysCallable perform }
{
    if let Some(page) = read_page(rt)? {
        return Ok(page.write(rt, program));
    }
    let task = read(rt)?;
    Ok(perform(rt, task))
}

impl Page {
    fn write(self, rt: &HostRuntime, program: Program) -> Status {
        match self.print(rt, program) {
            Ok(()) => Status::Done,
            Err(error) => {
                program.say_unwritten(rt, error);
                Status::Failed
            }
        }
    }

    fn print(self, rt: &HostRuntime, program: Program) -> io::Result<()> {
        match self {
            // All at once: `print` would write a page of this length in parts, and a reader may leave after the first.
            Page::Help => rt.write_all(program.help().as_bytes()),
            Page::Version => {
                println!(rt; "{program} 0.6.0\nproved with rattle-kit-13f logic dac8208d650f15bf")
            }
        }
    }
}

impl Program {
    fn help(self) -> &'static str {
        match self {
            Program::Parchfennel => HELP_OF_PARCHFENNEL,
            Program::Sequences => HELP_OF_SEQUENCES,
        }
    }

    // How the program is called
    pub(crate) fn usage(self) -> &'static str {
        match self {
            Program::Parchfennel => USAGE_OF_PARCHFENNEL,
            Program::Sequences => USAGE_OF_SEQUENCES,
        }
    }
}

const HELP_OF_PARCHFENNEL: &str = "parchfennel: the embedded ADPCM of Recommendation G.727 in a pipe

Speech, in G.711 or in linear samples, becomes frames of 40, 32, 24 or 16 kbit/s,
and frames become speech. The lower bits of a frame may be thrown away on the way,
and the decoder still follows the encoder: the core bits alone decide its state.

  parchfennel encode LAW WIDTH CORE [SAMPLES [EDITION]]
                                                speech in, frames out
  parchfennel drop WIDTH                        frames in, frames of WIDTH out;
                                                one that cannot be is refused
  parchfennel drop -most WIDTH                  frames of WIDTH at most, and not
                                                below their core
  parchfennel drop [-most] -list FILE           a width for each frame from FILE,
                                                over and over
  parchfennel decode LAW                        frames in, speech out
  parchfennel inspect                           frames in, a table and totals out;
                                                the number is - in edition 1

  LAW       mu or a, or linear: signed samples of 16 bits from -8192 to 8191, the
            least significant octet first
  WIDTH     bits a sample, 2 to 5, each of them 8 kbit/s
  CORE      bits of these that are never dropped, 2 to 4
  SAMPLES   samples in a frame, a multiple of 8 from 8 to 320 (160, which is
            20 ms, where it is not given)
  EDITION   1 (where it is not given) or 2. In edition 2 a frame has a number, and
            where one was lost decode refuses the next with 10 and ends; in
            edition 1 it does not notice, and its state is not the encoder's

They read standard input and write standard output. Two more words, IN and OUT,
name files instead; - is the standard one. A file whose name is digits only, or
begins with -, is written with ./ before it: ./160

Before encode and decode:
  -v             the state after each frame goes to standard error
  -states FILE   it goes to FILE, under a heading

From a WAV file to frames, from frames to a WAV file, and what is heard where the
air is full, at 16 kbit/s:
  sox in.wav -t ul -r 8000 -c 1 - | parchfennel encode mu 5 2 - in.g727
  parchfennel decode mu in.g727 | sox -t ul -r 8000 -c 1 - out.wav
  parchfennel drop -most 2 in.g727 | parchfennel decode mu |
    sox -t ul -r 8000 -c 1 - thin.wav

Status:
  0   done
  1   a frame was refused, the stream ended inside a frame or a sample, or reading
      or writing failed; standard error says where; what was written before stays
  2   wrong words; nothing was read or written
";

const HELP_OF_SEQUENCES: &str =
    "sequences: reads, writes and runs test sequences of Recommendation G.727

A sequence is a text: two hexadecimal digits a value, up to 32 values a line, and
on a last line of its own the sum of all values modulo 255.

  sequences read                             text in, values out, an octet each
  sequences write                            octets in, text out
  sequences encode LAW WIDTH CORE [HOMING]   text of PCM values in, text of
                                             codewords out, from reset
  sequences decode LAW WIDTH CORE [HOMING]   text of codewords in, text of PCM
                                             values out, from reset

  LAW      mu or a
  WIDTH    bits of a codeword, 2 to 5
  CORE     bits of these that move the state, 2 to 4
  HOMING   a file, a text of PCM values that go first and of which nothing is
           written; decode takes them as encoded at this law and pair

They read standard input and write standard output. A file whose name is digits
only, or begins with -, is written with ./ before it: ./160

Status:
  0   done
  1   a text was refused, a codeword was above its width, or reading or writing
      failed; standard error says where; what was written before stays
  2   wrong words; nothing was read or written
";

const USAGE_OF_PARCHFENNEL: &str =
    "called as: parchfennel [-v] [-states FILE] encode LAW WIDTH CORE [SAMPLES [EDITION]] [IN [OUT]]
           parchfennel drop [-most] WIDTH [IN [OUT]]
           parchfennel drop [-most] -list FILE [IN [OUT]]
           parchfennel [-v] [-states FILE] decode LAW [IN [OUT]]
           parchfennel inspect [IN [OUT]]
           parchfennel --help | --version
LAW is mu, a or linear; WIDTH is 2 to 5; CORE is 2 to 4, not above WIDTH; SAMPLES is a multiple of 8, 8 to 320; EDITION is 1 or 2";

const USAGE_OF_SEQUENCES: &str = "called as: sequences read
           sequences write
           sequences encode LAW WIDTH CORE [HOMING]
           sequences decode LAW WIDTH CORE [HOMING]
           sequences --help | --version
LAW is mu or a; WIDTH is 2 to 5; CORE is 2 to 4, not above WIDTH; HOMING is a file, a text of PCM values";
