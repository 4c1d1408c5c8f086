// -v and -states FILE, before the command and in any order.
use crate::call_words::Words;
use crate::wrong::Wrong;

#[derive(Clone, Copy)]
pub struct Options {
    pub verbose: bool,
    // The place of FILE
    pub states: Option<usize>,
}

// There are two options, and so two steps.
pub fn read_options(words: &mut Words) -> Result<Options, Wrong> {
    let none = Options {
        verbose: false,
        states: None,
    };
    let first = take_option(words, none)?;
    take_option(words, first)
}

// One that is given twice is not taken.
fn take_option(words: &mut Words, options: Options) -> Result<Options, Wrong> {
    if !options.verbose && words.skip_if(b"-v") {
        return Ok(Options {
            verbose: true,
            ..options
        });
    }
    if options.states.is_none() && words.skip_if(b"-states") {
        return Ok(Options {
            states: Some(words.file()?),
            ..options
        });
    }
    Ok(options)
}
