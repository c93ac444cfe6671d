// The command as a program of Rattle, for the gate. What is installed is command/main.c: it opens a file of any name, runs in little stack and has a
// status.
#![tactic(auto)]

use std::fs::File;
use std::{io, str};

// What Linux calls an argument that it can't take.
const EINVAL: i32 = 22;

// Rooms of what the command is lent, as command/main.c has them.
const TEXT: usize = 32771;

const TABLE: usize = 48546;

const STORE: usize = 32768;

const RECORD: usize = 1028;

const PAGE: usize = 65560;

const SHOWN: usize = 524480;

fn text() -> [u8; TEXT] {
    [0u8; TEXT]
}

fn table() -> [u32; TABLE] {
    [0u32; TABLE]
}

fn store() -> [u8; STORE] {
    [0u8; STORE]
}

fn record() -> [u8; RECORD] {
    [0u8; RECORD]
}

fn page() -> [u8; PAGE] {
    [0u8; PAGE]
}

fn shown() -> [u8; SHOWN] {
    [0u8; SHOWN]
}

// What the system says of a file that it doesn't open.
fn number_of(error: io::Error) -> i32 {
    error.raw_os_error().unwrap_or(EINVAL)
}

// The file of such a name. Rattle's names are text: one that isn't is none that can be opened.
fn open(rt: &HostRuntime, name: &[u8]) -> Result<File, i32> {
    match str::from_utf8(name) {
        Ok(name) => File::open(rt, name).map_err(number_of),
        Err(_) => Err(EINVAL),
    }
}

fn main(rt: HostRuntime) {
    let mut a = text();
    let mut b = table();
    let mut c = store();
    let mut d = record();
    let mut e = page();
    let mut f = shown();
    let file = command::file_named(&rt, &mut a);
    let (mut input, output, errors) = (rt.stdin(), rt.stdout(), rt.stderr());
    let Some(n) = file else {
        command::j8_run(
            &rt, &mut input, output, errors, None, false, &mut a, &mut b, &mut c, &mut d, &mut e,
            &mut f,
        );
        return;
    };
    match open(&rt, &a[..n]) {
        Ok(mut file) => {
            command::j8_run(
                &rt, &mut file, output, errors, None, false, &mut a, &mut b, &mut c, &mut d,
                &mut e, &mut f,
            );
        }
        Err(error) => {
            command::j8_run(
                &rt,
                &mut input,
                output,
                errors,
                Some(error),
                false,
                &mut a,
                &mut b,
                &mut c,
                &mut d,
                &mut e,
                &mut f,
            );
        }
    }
}
