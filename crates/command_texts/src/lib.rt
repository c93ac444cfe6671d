// Texts put together in a buffer: what doesn't fit is left out.
#![tactic(auto)]

ghost use Rattle.std.specs.Prelude.{[], ◌≡◌, ◌≤◌, length, take, drop};
ghost use Rattle.io.specs.Counts.{IsPrefixLen};
ghost use Rattle.decimals.specs.Decimals.{decimal};
ghost use Rattle.sentences.specs.Sentences.{sentence};
ghost use Rattle.sentences.specs.inner.Lines.{from_line};
ghost use Rattle.strings_write.specs.Write.{write_string, wrote_into};
ghost use Rattle.terminals.specs.Terminals.{safe_text};
ghost use Rattle.command_texts.specs.Texts.{PutWhole, behind_written, quoted_in, line_in};

use prelude::refusals::Refusal;
use prelude::slices;
use strings_write::write;

// A number of a buffer's bytes: n, which is never more than it has.
pub fn within(n: usize, buf: &[u8]) -> usize
    ensures counts { IsPrefixLen result buf.now }
    ensures is { (n ≤ length buf.now → result ≡ n) × (length buf.now ≤ n → result ≡ length buf.now) }
{
    slices::least(n, buf.len())
}

// Puts s behind the first bytes of a buffer, and answers the place behind it.
pub fn put(s: &[u8], at: usize, out: &mut [u8]) -> usize
    ensures { PutWhole s.now at result out.old out.new }
{
    if out.len() < at {
        return at;
    }
    if out.len() - at < s.len() {
        return at;
    }
    slices::copy_run(s, 0, s.len(), at, out);
    at + s.len()
}

// The place behind what was written into a buffer from a place on.
pub fn behind(written: Result<usize, Refusal>, at: usize, out: &[u8]) -> usize
    ensures { result ≡ behind_written written at (length out.now) }
{
    match written {
        Ok(n) => {
            if out.len() < at {
                return at;
            }
            at + slices::least(n, out.len() - at)
        }
        Err(_) => at,
    }
}

// The sentence of a refusal.
pub fn put_sentence(number: u32, at: usize, out: &mut [u8]) -> usize
    ensures { PutWhole (sentence number) at result out.old out.new }
{
    if out.len() < at {
        return at;
    }
    let written = sentences::write(number, &mut out[at..]);
    behind(written, at, out)
}

// A J8 text as a terminal is shown it, in the first n bytes of another buffer.
fn put_shown(n: usize, text: &[u8], at: usize, out: &mut [u8]) -> usize
    requires { IsPrefixLen n text.now }
    ensures { PutWhole (safe_text (take n text.now)) at result out.old out.new }
{
    if out.len() < at {
        return at;
    }
    let written = terminals::write(&text[..n], &mut out[at..]);
    behind(written, at, out)
}

// Bytes as a J8 string that can't drive a terminal; the string is first put in another buffer.
pub fn put_quoted(s: &[u8], at: usize, line: &mut [u8], out: &mut [u8]) -> usize
    ensures put_whole { PutWhole (quoted_in (length line.old) s.now) at result out.old out.new }
    ensures made { line.new ≡ wrote_into (write_string s.now) line.old }
{
    match write::write(s, line) {
        Ok(n) => put_shown(n, line, at, out),
        Err(_) => at,
    }
}

pub fn put_number(n: usize, at: usize, out: &mut [u8]) -> usize
    ensures { PutWhole (decimal n) at result out.old out.new }
{
    let mut digits = [0u8; 20];
    let k = io::decimal(n as u64, &mut digits);
    put(&digits[..k], at, out)
}

// The place of a line of a text, from 0, or the text's end.
fn line_at(s: &[u8], n: usize) -> usize
    ensures { (result ≤ length s.now) × (drop result s.now ≡ from_line [] s.now n) }
{
    let mut left = n;
    for i in 0..s.len() {
        if left == 0 {
            return i;
        }
        if s[i] != b'\n' {
            continue;
        }
        left -= 1;
    }
    s.len()
}

// A line of a text, from 0, without its end.
pub fn put_line(s: &[u8], n: usize, at: usize, out: &mut [u8]) -> usize
    ensures { PutWhole (line_in s.now n) at result out.old out.new }
{
    let from = line_at(s, n);
    let end = line_ends::lf_from(s, from);
    put(&s[from..end], at, out)
}
