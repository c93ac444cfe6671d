// What the commands do.
use command_outputs::outcomes::Outcome;
use command_outputs::outputs;
use command_words::arguments::Command;
use std::io::Print;
use std::rt::{Stderr, Stdout};

fn send<P: Print>(to: &P, bytes: &[u8]) -> Result<(), i32> {
    to.write_all(bytes).map_err(outputs::number_of)
}

fn lines<P: Print>(to: &P) -> Result<(), i32> {
    send(
        to,
        b"  lines [--pieces N] [FILE]
      prints each record of a J8 Lines backup: its line, a tab, a J8 string;
      reads N bytes at a time, 1 to 4096
",
    )
}

fn quote<P: Print>(to: &P) -> Result<(), i32> {
    send(
        to,
        b"  quote [--line | --lines | -0] [FILE]
      prints the input, any bytes, as one J8 string
      --line   leaves off one LF at the end of the input
      --lines  each line is a name: a J8 Lines backup of them
      -0       the same, where NUL ends each name
",
    )
}

fn unquote<P: Print>(to: &P) -> Result<(), i32> {
    send(
        to,
        b"  unquote [--lines | -0] [FILE]
      prints the bytes of one J8 string; a line's end behind it is ignored
      --lines  each record of a J8 Lines backup as it is, with LF behind it
      -0       the same with NUL behind each
",
    )
}

fn json8<P: Print>(to: &P) -> Result<(), i32> {
    send(
        to,
        b"  json8 [FILE]
      checks a JSON8 backup and prints it in its one written form
",
    )
}

fn strings<P: Print>(to: &P) -> Result<(), i32> {
    send(
        to,
        b"  strings [FILE]
      prints each string of a JSON8 backup: its node, a tab, a J8 string
",
    )
}

fn tsv8<P: Print>(to: &P) -> Result<(), i32> {
    send(
        to,
        b"  tsv8 [FILE]
      prints each cell of a TSV8 log: its row, a tab, the name of its column as
      a J8 string, a tab, its value
",
    )
}

fn whole<P: Print>(to: &P) -> Result<(), i32> {
    send(
        to,
        b"\
j8 COMMAND [OPTION..] [FILE]: J8 Notation backups, from FILE or standard input
",
    )?;
    lines(to)?;
    quote(to)?;
    unquote(to)?;
    json8(to)?;
    strings(to)?;
    tsv8(to)?;
    send(
        to,
        b"  help [COMMAND], --help, -h    prints this
  --version                     prints the version
With --json what is said on standard error is a JSON object a line. - is
standard input, and -- ends the options.
A refusal has a number, line (from 1), column (characters, from 1), place
(bytes, from 0; in J8 Lines, of the line) and a sentence.
Exit status: 0 done, 1 refused, 2 used wrongly, 3 the input can't be read or
the output written.
",
    )
}

fn print_to<P: Print>(to: &P, command: Command) -> Result<(), i32> {
    match command {
        Command::Lines => lines(to),
        Command::Quote => quote(to),
        Command::Unquote => unquote(to),
        Command::Json8 => json8(to),
        Command::Strings => strings(to),
        Command::Tsv8 => tsv8(to),
        _ => whole(to),
    }
}

// The help of a command, or all of it.
pub(crate) fn print(output: Stdout, command: Command) -> Outcome {
    outputs::ended(print_to(&output, command))
}

// No word at all: the help, where it doesn't mix with an output.
pub(crate) fn missing(errors: Stderr) -> Outcome {
    let _ = whole(&errors);
    Outcome::Misused(None)
}

pub(crate) fn version(output: Stdout) -> Outcome {
    outputs::ended(send(&output, b"j8 0.3.0\n"))
}
