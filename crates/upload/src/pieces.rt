// The bytes of a piece, taken by runs up to the next LF; and an upload's end.
ghost use Rattle.std.specs.Prelude.{List, ◌≡◌, ℕ, ◌+◌, ◌≤◌, length, take, drop};
ghost use Rattle.prelude.specs.Limits.{upload_max, line_max};
ghost use Rattle.upload.specs.Calls.{lent, with_refusal, stored, at_end, feed_byte, feed_bytes, finish_all};
ghost use Rattle.upload.specs.inner.Fitness.{Fit};

use crate::uploads::Upload;
use prelude::limits::{LINE_MAX, UPLOAD_MAX};
use prelude::refusals::{Refusal, Refused};
use prelude::{copies, slices};

// The state before a byte, with the refusal that the byte causes.
fn with_refusal(before: Upload, why: Refused) -> Upload
    requires { before.lfs ≤ upload_max }
    ensures { result ≡ with_refusal before why.refusal why.place }
{
    Upload {
        taken: before.taken,
        lfs: before.lfs,
        held: before.held,
        used: before.used,
        ended: before.ended,
        refusal: why.refusal.number(),
        line: before.lfs + 1,
        place: why.place,
    }
}

// One byte of a piece.
fn take_byte(s: Upload, b: u8, line: &mut [u8], out: &mut [u8]) -> Upload
    requires { Fit (lent s line.old out.old) }
    ensures { lent result line.new out.new ≡ feed_byte (lent s line.old out.old) b }
{
    let held = s.held;
    if s.refusal != 0 {
        return s;
    }
    if s.taken == UPLOAD_MAX {
        return with_refusal(s, Refusal::OverLimit.at(held));
    }
    if b == b'\n' {
        let added = records::append_line(&line[..held], s.used, out);
        return match added {
            Ok(count) => Upload {
                taken: s.taken + 1,
                lfs: s.lfs + 1,
                held: 0,
                used: s.used + count,
                ended: s.ended,
                refusal: s.refusal,
                line: s.line,
                place: s.place,
            },
            Err(why) => with_refusal(s, why),
        };
    }
    if held == LINE_MAX {
        return with_refusal(s, Refusal::TooLong.at(LINE_MAX));
    }
    line[held] = b;
    Upload {
        taken: s.taken + 1,
        lfs: s.lfs,
        held: held + 1,
        used: s.used,
        ended: s.ended,
        refusal: s.refusal,
        line: s.line,
        place: s.place,
    }
}

// How many of n bytes that are no LF find their place in the line and in the upload.
fn run_fits(s: Upload, n: usize) -> usize
    requires { (s.held ≤ line_max) × (s.taken ≤ upload_max) }
    ensures { (result ≤ n) × (s.held + result ≤ line_max) × (s.taken + result ≤ upload_max) }
{
    slices::least(n, slices::least(LINE_MAX - s.held, UPLOAD_MAX - s.taken))
}

// The a bytes of a piece from i on, none an LF, stored behind those held.
fn take_run(s: Upload, piece: &[u8], i: usize, a: usize, line: &mut [u8]) -> Upload
    requires { (i + a ≤ length piece.now) × (s.held + a ≤ line_max) × (s.taken + a ≤ upload_max) }
    ensures { (out : List ℕ) → lent result line.new out ≡ stored (lent s line.old out) (take a (drop i piece.now)) }
{
    copies::copy_long(piece, i, a, s.held, line);
    Upload {
        taken: s.taken + a,
        lfs: s.lfs,
        held: s.held + a,
        used: s.used,
        ended: s.ended,
        refusal: s.refusal,
        line: s.line,
        place: s.place,
    }
}

// The bytes of a piece: runs up to the next LF or limit, and the byte behind each.
pub(crate) fn take_bytes(state: Upload, piece: &[u8], line: &mut [u8], out: &mut [u8]) -> Upload
    requires { Fit (lent state line.old out.old) }
    ensures { lent result line.new out.new ≡ feed_bytes (lent state line.old out.old) piece.now }
{
    let mut s = state;
    let mut i = 0;
    loop {
        if s.refusal != 0 {
            return s;
        }
        let e = line_ends::lf_from(piece, i);
        let a = run_fits(s, e - i);
        s = take_run(s, piece, i, a, line);
        i += a;
        if piece.len() <= i {
            return s;
        }
        s = take_byte(s, piece[i], line, out);
        i += 1;
    }
}

// The state of an upload that is ended, with this much of the output used.
fn at_end(s: Upload, used: usize) -> Upload
    ensures { result ≡ at_end s used }
{
    Upload {
        taken: s.taken,
        lfs: s.lfs,
        held: 0,
        used,
        ended: true,
        refusal: s.refusal,
        line: s.line,
        place: s.place,
    }
}

// The end of an upload that is neither refused nor ended.
pub(crate) fn take_end(s: Upload, line: &[u8], out: &mut [u8]) -> Upload
    requires { Fit (lent s line.now out.old) }
    ensures { lent result line.now out.new ≡ finish_all (lent s line.now out.old) }
{
    let held = s.held;
    if held == 0 {
        return at_end(s, s.used);
    }
    let added = records::append_line(&line[..held], s.used, out);
    match added {
        Ok(count) => at_end(s, s.used + count),
        Err(why) => with_refusal(s, why),
    }
}
