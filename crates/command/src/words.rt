// The words behind the program's name, as the system hands them over.
use command_words::arguments;
use command_words::arguments::{Command, Options};
use std::env::FillError;
use std::rt::Env;

// The command that an argument names.
pub(crate) fn command_at<E: Env>(words: &E, i: usize) -> Command {
    let mut word = [0u8; 16];
    match words.arg(i, &mut word) {
        Ok(n) => arguments::command_of(&word[..n]),
        Err(FillError::NotPresent) => Command::Missing,
        Err(FillError::TooLong) => Command::Unknown,
    }
}

// The words from argument i on, for a command with these options. No option has more bytes than the array, so a longer word is a file's name, or
// none that is known.
pub(crate) fn options_from<E: Env>(words: &E, i: usize, known: u32) -> Options {
    let mut o = arguments::fresh();
    for at in i..usize::MAX {
        let mut word = [0u8; 16];
        match words.arg(at, &mut word) {
            Ok(n) => o = arguments::with_argument(o, &word[..n], known, at),
            Err(FillError::TooLong) => o = arguments::with_long(o, word[0], at),
            Err(FillError::NotPresent) => break,
        }
    }
    arguments::checked(o)
}
