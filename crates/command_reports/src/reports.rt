// What a run says on standard error.
ghost use Rattle.std.specs.Prelude.{◌≡◌};
ghost use Rattle.command_outputs.specs.Outcomes.{status_of};

use crate::misplaced;
use check::same;
use command_outputs::outcomes::{Outcome, Run};
use command_outputs::{outcomes, outputs};
use command_words::arguments;
use command_words::arguments::{Command, Fault, Options, Wrong};
use messages::Head;
use prelude::refusals::Refusal;
use std::io::Print;
use std::rt::{Env, Stderr};

// An argument, quoted.
fn put_argument<E: Env>(
    words: &E,
    i: usize,
    at: usize,
    store: &mut [u8],
    said: &mut [u8],
    line: &mut [u8],
) -> usize {
    match words.arg(i, store) {
        Ok(n) => command_texts::put_quoted(&store[..n], at, line, said),
        Err(_) => at,
    }
}

// What can be wrong with the words, in the order of `arguments::Fault`.
fn put_fault(fault: Fault, said: &mut [u8]) -> usize {
    command_texts::put_line(
        b"\
there is no such command
there is no such option here
one file at most
the file's name is empty
a file's name may have 4,095 bytes
--pieces takes a number from 1 to 4096
--line goes with neither --lines nor -0
",
        fault as usize,
        0,
        said,
    )
}

// The argument that it is about, if any.
fn put_wrong<E: Env>(
    words: &E,
    argument: Option<usize>,
    at: usize,
    store: &mut [u8],
    said: &mut [u8],
    line: &mut [u8],
) -> usize {
    let Some(i) = argument else {
        return at;
    };
    let e = command_texts::put(b": ", at, said);
    put_argument(words, i, e, store, said, line)
}

fn put_misuse<E: Env>(
    words: &E,
    wrong: Wrong,
    store: &mut [u8],
    said: &mut [u8],
    line: &mut [u8],
) -> usize {
    let a = put_fault(wrong.fault, said);
    let b = put_wrong(words, wrong.argument, a, store, said, line);
    command_texts::put(b" (see 'j8 help')", b, said)
}

// What Linux calls some errors.
const EPERM: i32 = 1;

const ENOENT: i32 = 2;

const EINTR: i32 = 4;

const EIO: i32 = 5;

const EBADF: i32 = 9;

const EAGAIN: i32 = 11;

const ENOMEM: i32 = 12;

const EACCES: i32 = 13;

const ENOTDIR: i32 = 20;

const EISDIR: i32 = 21;

const EINVAL: i32 = 22;

const EMFILE: i32 = 24;

const EFBIG: i32 = 27;

const ENOSPC: i32 = 28;

const EPIPE: i32 = 32;

const ENAMETOOLONG: i32 = 36;

const ELOOP: i32 = 40;

// The line of an error in `put_reason`, the first for any other.
fn reason_of(error: i32) -> usize {
    match error {
        ENOENT => 1,
        EACCES => 2,
        EISDIR => 3,
        ENOTDIR => 4,
        EPERM => 5,
        EMFILE => 6,
        ELOOP => 7,
        ENAMETOOLONG => 8,
        ENOSPC => 9,
        EPIPE => 10,
        EIO => 11,
        EBADF => 12,
        EFBIG => 13,
        EINVAL => 14,
        EINTR => 15,
        EAGAIN => 16,
        ENOMEM => 17,
        _ => 0,
    }
}

// What the system says of an error, in its own words.
fn put_reason(error: i32, at: usize, said: &mut [u8]) -> usize {
    command_texts::put_line(
        b"\
the system doesn't let it
No such file or directory
Permission denied
Is a directory
Not a directory
Operation not permitted
Too many open files
Too many levels of symbolic links
File name too long
No space left on device
Broken pipe
Input/output error
Bad file descriptor
File too large
Invalid argument
Interrupted system call
Resource temporarily unavailable
Cannot allocate memory
",
        reason_of(error),
        at,
        said,
    )
}

// The input: standard input, or the file's name, quoted.
fn put_input<E: Env>(
    words: &E,
    file: Option<usize>,
    store: &mut [u8],
    said: &mut [u8],
    line: &mut [u8],
) -> usize {
    let Some(file) = file else {
        return command_texts::put(b"standard input", 0, said);
    };
    let n = command_texts::within(words.arg(file, store).unwrap_or(0), store);
    if same(&store[..n], b"-") {
        return command_texts::put(b"standard input", 0, said);
    }
    command_texts::put_quoted(&store[..n], 0, line, said)
}

fn put_unread<E: Env>(
    words: &E,
    file: Option<usize>,
    error: i32,
    store: &mut [u8],
    said: &mut [u8],
    line: &mut [u8],
) -> usize {
    let a = put_input(words, file, store, said, line);
    let b = command_texts::put(b" can't be read: ", a, said);
    put_reason(error, b, said)
}

fn put_unwritten(error: i32, said: &mut [u8]) -> usize {
    let a = command_texts::put(b"standard output can't be written: ", 0, said);
    put_reason(error, a, said)
}

fn put_long(n: usize, said: &mut [u8]) -> usize {
    let a = command_texts::put(b"too long to restore: the written form has ", 0, said);
    let b = command_texts::put_number(n, a, said);
    command_texts::put(b" bytes, and a JSON8 text may have 32,768", b, said)
}

fn put_mixed(n: usize, o: Options, said: &mut [u8]) -> usize {
    let a = command_texts::put(b"line ", 0, said);
    let b = command_texts::put_number(n, a, said);
    if o.flags & arguments::NUL != 0 {
        return command_texts::put(
            b": the name holds a NUL, and couldn't be told from two",
            b,
            said,
        );
    }
    command_texts::put(
        b": the name holds an LF, and couldn't be told from two: use -0",
        b,
        said,
    )
}

// What the command knows besides the sentence of a number: what `quote` would write couldn't be read back.
fn put_beside(number: u32, command: Command, at: usize, said: &mut [u8]) -> usize {
    match command {
        Command::Quote => {
            if number == Refusal::NoRoom.number() {
                return command_texts::put(b": a J8 string may have 32,768 bytes", at, said);
            }
            command_texts::put(b": no upload could read this name back", at, said)
        }
        _ => at,
    }
}

fn put_refused(number: u32, command: Command, said: &mut [u8]) -> usize {
    let a = command_texts::put_sentence(number, 0, said);
    put_beside(number, command, a, said)
}

fn put_outcome<E: Env>(
    words: &E,
    outcome: Outcome,
    command: Command,
    o: Options,
    store: &mut [u8],
    said: &mut [u8],
    line: &mut [u8],
) -> usize {
    match outcome {
        Outcome::Done => 0,
        Outcome::Refused(number, _, _) => put_refused(number, command, said),
        Outcome::Long(n) => put_long(n, said),
        Outcome::Mixed(n) => put_mixed(n, o, said),
        Outcome::Misused(None) => 0,
        Outcome::Misused(Some(wrong)) => put_misuse(words, wrong, store, said, line),
        Outcome::Unread(error) => put_unread(words, o.file, error, store, said, line),
        Outcome::Unwritten(error) => put_unwritten(error, said),
    }
}

fn head_of(outcome: Outcome) -> Head {
    match outcome {
        Outcome::Refused(number, spot, place) => Head::Refused(number, spot, place),
        _ => Head::Note,
    }
}

// A line on standard error. If that can't be written there is nobody to tell.
fn say_line(errors: Stderr, head: Head, sentence: &[u8], json: bool, line: &mut [u8]) {
    if let Ok(n) = messages_write::write(head, sentence, json, line) {
        let k = command_texts::within(n, line);
        let _ = errors.write_all(&line[..k]).map_err(outputs::number_of);
    }
}

// The first n bytes of what was put together, as a line.
fn say(errors: Stderr, head: Head, n: usize, o: Options, said: &[u8], line: &mut [u8]) {
    if n == 0 {
        return;
    }
    let n = command_texts::within(n, said);
    say_line(
        errors,
        head,
        &said[..n],
        o.flags & arguments::JSON != 0,
        line,
    )
}

fn say_empty(errors: Stderr, empty: bool, o: Options, said: &mut [u8], line: &mut [u8]) {
    if !empty {
        return;
    }
    let n = command_texts::put(b"the input is empty", 0, said);
    say(errors, Head::Note, n, o, said, line)
}

fn say_mark(errors: Stderr, mark: Option<usize>, o: Options, said: &mut [u8], line: &mut [u8]) {
    let Some(mark) = mark else {
        return;
    };
    let a = command_texts::put(b"line ", 0, said);
    let b = command_texts::put_number(mark, a, said);
    let c = command_texts::put(
        b" begins with a byte order mark (U+FEFF), which counts as a character of it",
        b,
        said,
    );
    say(errors, Head::Note, c, o, said, line)
}

// The place of a refusal 13.
fn misplaced_at(outcome: Outcome) -> Option<usize> {
    match outcome {
        Outcome::Refused(number, _, place) if number == Refusal::Misplaced.number() => Some(place),
        _ => None,
    }
}

fn put_all<E: Env>(
    words: &E,
    run: Run,
    command: Command,
    o: Options,
    text: &mut [u8],
    table: &mut [u32],
    store: &mut [u8],
    said: &mut [u8],
    line: &mut [u8],
) -> usize {
    let outcome = run.outcome;
    match misplaced_at(outcome) {
        Some(place) => misplaced::put(place, run.size, text, table, store, said, line),
        None => put_outcome(words, outcome, command, o, store, said, line),
    }
}

// What was put together, and a note behind it.
fn say_last(
    errors: Stderr,
    outcome: Outcome,
    n: usize,
    mark: Option<usize>,
    o: Options,
    said: &mut [u8],
    line: &mut [u8],
) {
    say(errors, head_of(outcome), n, o, said, line);
    say_mark(errors, mark, o, said, line)
}

// Says what there is to say, and answers the status.
pub fn report<E: Env>(
    words: &E,
    errors: Stderr,
    run: Run,
    command: Command,
    o: Options,
    text: &mut [u8],
    table: &mut [u32],
    store: &mut [u8],
    said: &mut [u8],
    line: &mut [u8],
) -> u32
    ensures { result ≡ status_of run.outcome }
{
    say_empty(errors, run.empty, o, said, line);
    let n = put_all(words, run, command, o, text, table, store, said, line);
    let outcome = run.outcome;
    say_last(errors, outcome, n, run.mark, o, said, line);
    outcomes::status_of(outcome)
}
