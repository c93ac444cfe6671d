// The command `j8`: prints what a backup holds, or says why it is refused, and answers a status.
#![tactic(auto)]

ghost use Rattle.std.specs.Prelude.{length, ◌≤◌, IfSome};

mod help;
mod inputs;
mod quoting;
mod words;

use command_books::uploads::Job;
use command_books::{marks, uploads};
use command_outputs::outcomes::{Outcome, Run};
use command_reports::reports;
use command_words::arguments;
use command_words::arguments::{Command, Fault, Options, Wrong};
use prelude::slices;
use std::io::Read;
use std::rt::{Env, Stderr, Stdout};

// A run with nothing besides its outcome.
fn ended(outcome: Outcome) -> Run {
    Run {
        outcome,
        size: 0,
        mark: None,
        empty: false,
    }
}

// A command on its whole input.
fn run_text(
    output: Stdout,
    command: Command,
    o: Options,
    text: &[u8],
    terminal: bool,
    table: &mut [u32],
    store: &mut [u8],
    page: &mut [u8],
    shown: &mut [u8],
) -> Outcome {
    match command {
        Command::Quote => {
            let mut n = text.len();
            if o.flags & arguments::LINE != 0 {
                n = quoting::without_lf(text);
            }
            let n = command_texts::within(n, text);
            quoting::quote(output, &text[..n], terminal, page, shown)
        }
        Command::Unquote => quoting::unquote(output, text, store),
        Command::Json8 => command_tables::rewrite(
            output, text, terminal, table, store, page, shown,
        ),
        Command::Tsv8 => command_sheets::list(output, text, terminal, table, store, page, shown),
        _ => command_tables::list(output, text, terminal, table, store, page, shown),
    }
}

// The line that begins with a mark in a text that is refused.
fn mark_of(outcome: Outcome, text: &[u8]) -> Option<usize> {
    match outcome {
        Outcome::Refused(_, _, _) => marks::line_of(text, 1),
        _ => None,
    }
}

// A command that reads its input whole.
fn run_whole<R: Read>(
    input: &mut R,
    output: Stdout,
    command: Command,
    o: Options,
    terminal: bool,
    text: &mut [u8],
    table: &mut [u32],
    store: &mut [u8],
    page: &mut [u8],
    shown: &mut [u8],
) -> Run {
    match inputs::fill(input, text) {
        Ok(n) => {
            let size = command_texts::within(n, text);
            let outcome = run_text(
                output,
                command,
                o,
                &text[..size],
                terminal,
                table,
                store,
                page,
                shown,
            );
            Run {
                outcome,
                size,
                mark: mark_of(outcome, &text[..size]),
                empty: size == 0,
            }
        }
        Err(error) => ended(Outcome::Unread(error)),
    }
}

// The byte that ends a name.
fn end_of(o: Options) -> u8 {
    if o.flags & arguments::NUL != 0 {
        return 0;
    }
    b'\n'
}

fn misused(fault: Fault, argument: Option<usize>) -> Outcome {
    Outcome::Misused(Some(Wrong { fault, argument }))
}

// What is to be done: nothing more, or to read an input whole or in pieces.
#[derive(Clone, Copy)]
enum Plan {
    Ended(Outcome),
    Whole,
    Pieces(Job),
}

fn in_names(o: Options) -> bool {
    o.flags & (arguments::LINES | arguments::NUL) != 0
}

fn plan_input(command: Command, o: Options) -> Plan {
    match command {
        Command::Lines => Plan::Pieces(Job::List),
        Command::Quote => {
            if in_names(o) {
                return Plan::Pieces(Job::Quote(end_of(o)));
            }
            Plan::Whole
        }
        Command::Unquote => {
            if in_names(o) {
                return Plan::Pieces(Job::Give(end_of(o)));
            }
            Plan::Whole
        }
        _ => Plan::Whole,
    }
}

// A command that reads; the buffer is for the file's name. The error is what the system says of a file that it doesn't open.
fn plan_file<E: Env>(
    words: &E,
    output: Stdout,
    error: Option<i32>,
    command: Command,
    o: Options,
    path: &mut [u8],
) -> Plan {
    if o.flags & arguments::HELP != 0 {
        return Plan::Ended(help::print(output, command));
    }
    if o.wrong.is_some() {
        return Plan::Ended(Outcome::Misused(o.wrong));
    }
    if let Err(fault) = inputs::file_at(words, o.file, path) {
        return Plan::Ended(misused(fault, None));
    }
    if let Some(error) = error {
        return Plan::Ended(Outcome::Unread(error));
    }
    plan_input(command, o)
}

// The help, for all commands or the one that is named.
fn run_help<E: Env>(words: &E, output: Stdout) -> Outcome {
    let command = words::command_at(words, 2);
    match command {
        Command::Unknown => misused(Fault::NoCommand, Some(2)),
        _ => help::print(output, command),
    }
}

fn plan_command<E: Env>(
    words: &E,
    output: Stdout,
    errors: Stderr,
    error: Option<i32>,
    command: Command,
    o: Options,
    path: &mut [u8],
) -> Plan {
    match command {
        Command::Help => Plan::Ended(run_help(words, output)),
        Command::Version => Plan::Ended(help::version(output)),
        Command::Missing => Plan::Ended(help::missing(errors)),
        Command::Unknown => Plan::Ended(misused(Fault::NoCommand, Some(1))),
        _ => plan_file(words, output, error, command, o, path),
    }
}

fn run<E: Env, R: Read>(
    words: &E,
    input: &mut R,
    output: Stdout,
    errors: Stderr,
    error: Option<i32>,
    command: Command,
    o: Options,
    terminal: bool,
    text: &mut [u8],
    table: &mut [u32],
    store: &mut [u8],
    out: &mut [u8],
    page: &mut [u8],
    shown: &mut [u8],
) -> Run {
    let made = plan_command(words, output, errors, error, command, o, text);
    match made {
        Plan::Ended(outcome) => ended(outcome),
        Plan::Whole => run_whole(
            input, output, command, o, terminal, text, table, store, page, shown,
        ),
        Plan::Pieces(job) => uploads::run(
            input, output, o.size, terminal, job, text, store, out, page, shown,
        ),
    }
}

// Whether a command reads an input.
fn is_reader(command: Command) -> bool {
    match command {
        Command::Help => false,
        Command::Version => false,
        Command::Missing => false,
        Command::Unknown => false,
        _ => true,
    }
}

// The bytes of the name of the file that `j8_run` is to read, put at the start of a buffer; None where it reads standard input, or nothing.
pub fn file_named<E: Env>(words: &E, path: &mut [u8]) -> Option<usize>
    ensures prefix { IfSome result (λ n. n ≤ length path.new) }
    ensures short { IfSome result (λ n. n ≤ 4095) }
{
    let command = words::command_at(words, 1);
    let o = words::options_from(words, 2, arguments::options_of(command));
    if !is_reader(command) || o.flags & arguments::HELP != 0 || o.wrong.is_some() {
        return None;
    }
    match inputs::file_at(words, o.file, path) {
        Ok(Some(n)) => Some(slices::least(command_texts::within(n, path), inputs::NAME_MAX)),
        _ => None,
    }
}

// The same for C, with 0 for None.
pub fn j8_file<E: Env>(words: &E, path: &mut [u8]) -> usize
    ensures prefix { result ≤ length path.new }
    ensures short { result ≤ 4095 }
{
    file_named(words, path).unwrap_or(0)
}

// The command, with the words that the program was called with: the status, 0 to 3. It is given the input, which is the file of `j8_file` where
// there is one, and what the system says if it doesn't open that. It is told whether standard output is a terminal, and is lent its large
// buffers, so that it takes little of the stack.
pub fn j8_run<E: Env, R: Read>(
    words: &E,
    input: &mut R,
    output: Stdout,
    errors: Stderr,
    error: Option<i32>,
    terminal: bool,
    text: &mut [u8],
    table: &mut [u32],
    store: &mut [u8],
    out: &mut [u8],
    page: &mut [u8],
    shown: &mut [u8],
) -> u32
    ensures { result ≤ 3 }
{
    let command = words::command_at(words, 1);
    let o = words::options_from(words, 2, arguments::options_of(command));
    let ended = run(
        words, input, output, errors, error, command, o, terminal, text, table, store, out, page,
        shown,
    );
    reports::report(
        words, errors, ended, command, o, text, table, store, page, shown,
    )
}
