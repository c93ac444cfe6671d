// Any bytes to a J8 string and back, whole.
use command_outputs::outcomes::Outcome;
use command_outputs::outputs;
use messages::Spot;
use prelude::limits::TEXT_MAX;
use prelude::slices;
use std::io::Print;
use std::rt::Stdout;
use strings::read;
use strings_write::write;

// Prints the first n bytes of the page and LF.
fn print_string(
    output: Stdout,
    n: usize,
    terminal: bool,
    page: &mut [u8],
    shown: &mut [u8],
) -> Outcome {
    let e = command_texts::put(b"\n", n, page);
    let e = command_texts::within(e, page);
    outputs::ended(outputs::print(output, &page[..e], terminal, shown))
}

pub(crate) fn quote(
    output: Stdout,
    data: &[u8],
    terminal: bool,
    page: &mut [u8],
    shown: &mut [u8],
) -> Outcome {
    let room = command_texts::within(TEXT_MAX, page);
    match write::write(data, &mut page[..room]) {
        Ok(n) => print_string(output, n, terminal, page, shown),
        Err(refusal) => Outcome::Refused(refusal.number(), Spot::Quoted, 0),
    }
}

// The length of the first n bytes without such a byte at their end.
fn without(x: u8, text: &[u8], n: usize) -> usize {
    if n == 0 {
        return 0;
    }
    if slices::byte_at(text, n - 1, 0) == x {
        return n - 1;
    }
    n
}

// The length of a text without an LF at its end.
pub(crate) fn without_lf(text: &[u8]) -> usize {
    without(b'\n', text, text.len())
}

// The length of a text without a line's end behind it, LF or CR LF.
fn without_end(text: &[u8]) -> usize {
    let n = without_lf(text);
    if n == text.len() {
        return n;
    }
    without(b'\r', text, n)
}

fn unquote_text(output: Stdout, text: &[u8], out: &mut [u8]) -> Outcome {
    match read::read(text, out) {
        Ok(n) => {
            let n = command_texts::within(n, out);
            outputs::ended(output.write_all(&out[..n]).map_err(outputs::number_of))
        }
        Err(f) => Outcome::Refused(f.refusal.number(), Spot::Quoted, f.place),
    }
}

pub(crate) fn unquote(output: Stdout, text: &[u8], out: &mut [u8]) -> Outcome {
    let n = command_texts::within(without_end(text), text);
    unquote_text(output, &text[..n], out)
}
