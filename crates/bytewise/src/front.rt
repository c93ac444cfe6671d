// The front of the data that stands as it is, stored behind the opening quote as it is tested, where the room is known to suffice.
ghost use Rattle.std.specs.Prelude.{◌+◌, ◌-◌, ◌≤◌, ◌≡◌, length, take, drop};
ghost use Rattle.std.proofs.lemmas.List.Edits.{sets};
ghost use Rattle.bytewise.specs.inner.Bytewise.{Fronted, Onward, owed_at};

use runs::{blocks, threes};
use utf8::chars;

// Stores four bytes of s. All are read first, so that they are stored at once.
fn copy_four(s: &[u8], at: usize, o: usize, out: &mut [u8])
    requires { (at + 4 ≤ length s.now) × (o + 4 ≤ length out.old) }
    ensures { out.new ≡ sets out.old o (take 4 (drop at s.now)) }
{
    let b0 = s[at];
    let b1 = s[at + 1];
    let b2 = s[at + 2];
    let b3 = s[at + 3];
    out[o] = b0;
    out[o + 1] = b1;
    out[o + 2] = b2;
    out[o + 3] = b3;
}

// Sixteen bytes behind a quote.
fn put_sixteen(s: &[u8], at: usize, out: &mut [u8])
    requires { (at + 16 ≤ length s.now) × (at + 17 ≤ length out.old) }
    ensures { out.new ≡ sets out.old (at + 1) (take 16 (drop at s.now)) }
{
    eights::copy(s, at, at + 1, out);
    eights::copy(s, at + 8, at + 9, out);
}

// Whole blocks of ASCII.
fn put_blocks(s: &[u8], out: &mut [u8]) -> usize
    requires { length s.now + 2 ≤ length out.old }
    ensures { (result ≤ length s.now) × Onward s.now 0 result out.old out.new }
{
    let mut at = 0;
    // By while: a turn takes a whole block, and what is left at last is less than one.
    while 16 <= s.len() - at {
        if blocks::any_odd(b'"', s, at, 16) {
            return at;
        }
        put_sixteen(s, at, out);
        at += 16;
    }
    at
}

// Where less than a block is left, the last block of the data, though part of it is stored already.
fn put_last(s: &[u8], at: usize, out: &mut [u8]) -> usize
    requires { (at ≤ length s.now) × (length s.now + 2 ≤ length out.old) }
    ensures { (result ≤ length s.now) × Onward s.now at result out.old out.new }
{
    let n = s.len();
    if n < 16 {
        return at;
    }
    if 16 <= n - at {
        return at;
    }
    if blocks::any_odd(b'"', s, n - 16, 16) {
        return at;
    }
    put_sixteen(s, n - 16, out);
    n
}

// Four to eight bytes of ASCII, by two fours that may overlap.
fn put_two_fours(s: &[u8], out: &mut [u8]) -> usize
    requires { (4 ≤ length s.now) × (length s.now ≤ 8) × (length s.now + 2 ≤ length out.old) }
    ensures { (result ≤ length s.now) × Onward s.now 0 result out.old out.new }
{
    let p = s.len() - 4;
    if blocks::any_odd(b'"', s, 0, 4) | blocks::any_odd(b'"', s, p, 4) {
        return 0;
    }
    copy_four(s, 0, 1, out);
    copy_four(s, p, p + 1, out);
    s.len()
}

// Eight to sixteen bytes of ASCII, by two eights that may overlap.
fn put_two_eights(s: &[u8], out: &mut [u8]) -> usize
    requires { (8 ≤ length s.now) × (length s.now ≤ 16) × (length s.now + 2 ≤ length out.old) }
    ensures { (result ≤ length s.now) × Onward s.now 0 result out.old out.new }
{
    let p = s.len() - 8;
    if blocks::any_odd(b'"', s, 0, 8) | blocks::any_odd(b'"', s, p, 8) {
        return 0;
    }
    eights::copy(s, 0, 1, out);
    eights::copy(s, p, p + 1, out);
    s.len()
}

// ASCII by blocks: a byte loop would be felt in short keys.
fn put_ascii(s: &[u8], out: &mut [u8]) -> usize
    requires { length s.now + 2 ≤ length out.old }
    ensures { (result ≤ length s.now) × Onward s.now 0 result out.old out.new }
{
    let n = s.len();
    if n < 4 {
        return 0;
    }
    if n < 8 {
        return put_two_fours(s, out);
    }
    if n < 16 {
        return put_two_eights(s, out);
    }
    let a = put_blocks(s, out);
    put_last(s, a, out)
}

// Single bytes of ASCII.
fn put_one_by_one(s: &[u8], from: usize, out: &mut [u8]) -> usize
    requires { (from ≤ length s.now) × (length s.now + 2 ≤ length out.old) }
    ensures { (result ≤ length s.now) × Onward s.now from result out.old out.new }
{
    for at in from..s.len() {
        let b = s[at];
        if blocks::odd(b'"', b) {
            return at;
        }
        out[at + 1] = b;
    }
    s.len()
}

// The continuations at a place, up to two: they belong to the character before it.
fn put_owed(s: &[u8], at: usize, out: &mut [u8]) -> usize
    requires { (at + 2 ≤ length s.now) × (at + 3 ≤ length out.old) }
    ensures { (result ≡ at + owed_at s.now at) × (out.new ≡ sets out.old (at + 1) (take (owed_at s.now at) (drop at s.now))) }
{
    if !blocks::continues(s[at]) {
        return at;
    }
    out[at + 1] = s[at];
    if !blocks::continues(s[at + 1]) {
        return at + 1;
    }
    out[at + 2] = s[at + 1];
    at + 2
}

// Sixteen bytes and what belongs to the last of them.
fn put_through(s: &[u8], at: usize, out: &mut [u8]) -> usize
    requires { (at + 18 ≤ length s.now) × (at + 19 ≤ length out.old) }
    ensures { (result ≡ at + 16 + owed_at s.now (at + 16)) × (out.new ≡ sets out.old (at + 1) (take (result - at) (drop at s.now))) }
{
    put_sixteen(s, at, out);
    put_owed(s, at + 16, out)
}

// Whole blocks of characters of up to three bytes; ASCII is cheaper, so it comes first. A block of ASCII that doesn't stand as it is has an
// escape, and needs no other test.
fn put_threes(s: &[u8], from: usize, out: &mut [u8]) -> usize
    requires { (from ≤ length s.now) × (length s.now + 2 ≤ length out.old) }
    ensures { (result ≤ length s.now) × Onward s.now from result out.old out.new }
{
    let mut at = from;
    // By while: a turn takes a whole block, and what is left at last is less than one.
    while 18 <= s.len() - at {
        if !blocks::any_odd(b'"', s, at, 16) {
            put_sixteen(s, at, out);
            at += 16;
            continue;
        }
        if !chars::any_high(s, at, 16) {
            return at;
        }
        if !threes::begins(s[at], s[at + 1]) {
            return at;
        }
        if threes::any_odd_three(b'"', s, at) {
            return at;
        }
        at = put_through(s, at, out);
    }
    at
}

// Where less than a block is left, the last block of the data, though part of it is stored already.
fn put_last_threes(s: &[u8], at: usize, out: &mut [u8]) -> usize
    requires { (at ≤ length s.now) × (length s.now + 2 ≤ length out.old) }
    ensures { (result ≤ length s.now) × Onward s.now at result out.old out.new }
{
    let n = s.len();
    if n < 18 {
        return at;
    }
    if 18 <= n - at {
        return at;
    }
    if n - at < 3 {
        return at;
    }
    if !threes::begins(s[at], s[at + 1]) {
        return at;
    }
    if threes::any_odd_three(b'"', s, n - 18) {
        return at;
    }
    put_through(s, n - 18, out)
}

// From a byte that isn't ASCII on, as far as characters have up to three bytes.
fn put_wide(s: &[u8], from: usize, out: &mut [u8]) -> usize
    requires { (from ≤ length s.now) × (length s.now + 2 ≤ length out.old) }
    ensures { (result ≤ length s.now) × Onward s.now from result out.old out.new }
{
    if from == s.len() {
        return from;
    }
    if s[from] < 128 {
        return from;
    }
    let a = put_threes(s, from, out);
    let b = put_last_threes(s, a, out);
    put_one_by_one(s, b, out)
}

// The same from any byte on.
pub fn put_onward(s: &[u8], from: usize, out: &mut [u8]) -> usize
    requires { (from ≤ length s.now) × (length s.now + 2 ≤ length out.old) }
    ensures { (result ≤ length s.now) × Onward s.now from result out.old out.new }
{
    let a = put_one_by_one(s, from, out);
    put_wide(s, a, out)
}

// The opening quote and the front as far as blocks of ASCII go; the place of the first byte that isn't stored.
pub fn put_front(s: &[u8], out: &mut [u8]) -> usize
    requires { length s.now + 2 ≤ length out.old }
    ensures { Fronted s.now out.old result out.new }
{
    out[0] = b'"';
    put_ascii(s, out)
}
