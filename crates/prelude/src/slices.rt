// Reads that answer past the end, and stores that stop at the room: index arithmetic ends here.
ghost use Rattle.std.specs.Prelude.{◌≡◌, ◌+◌, ◌-◌, ◌<◌, ◌≤◌, length, get_or, take, drop, set};
ghost use Rattle.std.proofs.lemmas.List.Edits.{sets};

// The byte k places behind a place, 0 past the end.
pub fn byte_at(s: &[u8], at: usize, k: usize) -> u8
    ensures { result ≡ get_or (drop at s.now) k 0 }
{
    if at < s.len() {
        if k < s.len() - at { s[at + k] } else { 0 }
    } else {
        0
    }
}

// Stores a byte, if there is room for it.
pub fn put(b: u8, o: usize, out: &mut [u8])
    ensures { out.new ≡ set out.old o b }
{
    if o < out.len() {
        out[o] = b;
    }
}

// The lesser of two numbers.
pub fn least(a: usize, b: usize) -> usize
    ensures { (result ≤ a) × (result ≤ b) × (a ≤ b → result ≡ a) × (b ≤ a → result ≡ b) }
{
    if a < b { a } else { b }
}

// An end for a scan: n bytes on, or where a text of that length ends.
pub fn soon(length: usize, at: usize, n: usize) -> usize
    requires { (at ≤ length) × (0 < n) }
    ensures within { (result ≤ length) × (at < length → at < result) }
    ensures is { (at + n ≤ length → result ≡ at + n) × (length ≤ at + n → result ≡ length) }
{
    if length - at < n {
        return length;
    }
    at + n
}

// How many places behind a place find room.
pub(crate) fn left(length: usize, o: usize) -> usize
    ensures { result ≡ length - o }
{
    if o < length { length - o } else { 0 }
}

// Stores n bytes of s from a place on, one by one.
pub(crate) fn copy_all(s: &[u8], at: usize, n: usize, o: usize, out: &mut [u8])
    requires { (at + n ≤ length s.now) × (n ≤ length out.old - o) }
    ensures { out.new ≡ sets out.old o (take n (drop at s.now)) }
{
    for i in 0..n {
        out[o + i] = s[at + i];
    }
}

// The same of few bytes, each if there is room for it.
pub fn copy_run(s: &[u8], at: usize, n: usize, o: usize, out: &mut [u8])
    requires { at + n ≤ length s.now }
    ensures { out.new ≡ sets out.old o (take n (drop at s.now)) }
{
    let m = least(n, left(out.len(), o));
    copy_all(s, at, m, o, out);
}
