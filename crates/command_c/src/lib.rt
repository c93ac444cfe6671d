// The command for C: what command/main.c calls, each a call of the function of that name of `command`, with its clauses. A `Stdin`, `Stdout` or
// `Stderr` takes no bytes, so C passes nothing for it.
#![tactic(auto)]

ghost use Rattle.std.specs.Prelude.{length, ◌≤◌};

mod words;

use std::rt::{Stderr, Stdin, Stdout};
use words::Words;

// The bytes of the name of the file that `j8_run` is to read, put at the start of a buffer; 0 where it reads standard input, or nothing.
#[unsafe(no_mangle)]
pub extern "C" fn j8_file(words: &[u8], addresses: &[usize], path: &mut [u8]) -> usize
    ensures prefix { result ≤ length path.new }
    ensures short { result ≤ 4095 }
{
    command::j8_file(
        &Words {
            all: words,
            addresses,
        },
        path,
    )
}

// The command: its status, 0 to 3. Its input is standard input, in whose place C has put the file of `j8_file`; the error is what the system says if
// it doesn't open that, else 0.
#[unsafe(no_mangle)]
pub extern "C" fn j8_run(
    input: Stdin,
    output: Stdout,
    errors: Stderr,
    error: i32,
    terminal: bool,
    words: &[u8],
    addresses: &[usize],
    text: &mut [u8],
    table: &mut [u32],
    store: &mut [u8],
    out: &mut [u8],
    page: &mut [u8],
    shown: &mut [u8],
) -> u32
    ensures { result ≤ 3 }
{
    let mut input = input;
    let error = if error == 0 { None } else { Some(error) };
    command::j8_run(
        &Words {
            all: words,
            addresses,
        },
        &mut input,
        output,
        errors,
        error,
        terminal,
        text,
        table,
        store,
        out,
        page,
        shown,
    )
}
