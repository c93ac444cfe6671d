// Runs that are likely to be long, copied by blocks. A block is read whole before it is stored, so that any compiler moves it at once: it
// needn't know that the two slices lie apart.
ghost use Rattle.std.specs.Prelude.{◌≡◌, ◌+◌, ◌≤◌, length, take, drop};
ghost use Rattle.std.proofs.lemmas.List.Edits.{sets};
ghost use Rattle.prelude.specs.inner.Copies.{Further};

use crate::slices;

fn copy_sixteen(s: &[u8], at: usize, o: usize, out: &mut [u8])
    requires { (at + 16 ≤ length s.now) × (o + 16 ≤ length out.old) }
    ensures { out.new ≡ sets out.old o (take 16 (drop at s.now)) }
{
    let mut block = [0u8; 16];
    slices::copy_all(s, at, 16, 0, &mut block);
    slices::copy_all(&block, 0, 16, o, out);
}

fn copy_thirty_two(s: &[u8], at: usize, o: usize, out: &mut [u8])
    requires { (at + 32 ≤ length s.now) × (o + 32 ≤ length out.old) }
    ensures { out.new ≡ sets out.old o (take 32 (drop at s.now)) }
{
    copy_sixteen(s, at, o, out);
    copy_sixteen(s, at + 16, o + 16, out);
}

// By 64 bytes as long as more are left; how many are stored.
fn copy_blocks(s: &[u8], at: usize, n: usize, o: usize, out: &mut [u8]) -> usize
    requires { (at + n ≤ length s.now) × (o + n ≤ length out.old) }
    ensures { (result ≤ n) × (n ≤ result + 64) × Further (drop at s.now) o 0 result out.old out.new }
{
    let mut i = 0;
    // By while: a turn takes a whole block, and what is left at last is less than one.
    while 64 < n - i {
        copy_thirty_two(s, at + i, o + i, out);
        copy_thirty_two(s, at + i + 32, o + i + 32, out);
        i += 64;
    }
    i
}

// Half a block, if more is left.
fn copy_half(s: &[u8], at: usize, n: usize, i: usize, o: usize, out: &mut [u8]) -> usize
    requires { (at + n ≤ length s.now) × (o + n ≤ length out.old) × (i ≤ n) × (n ≤ i + 64) }
    ensures { (result ≤ n) × (n ≤ result + 32) × Further (drop at s.now) o i result out.old out.new }
{
    if n - i <= 32 {
        return i;
    }
    copy_thirty_two(s, at + i, o + i, out);
    i + 32
}

// The last bytes, by sixteens, the last of which may overlap what is stored already.
fn copy_last(s: &[u8], at: usize, n: usize, i: usize, o: usize, out: &mut [u8])
    requires { (at + n ≤ length s.now) × (o + n ≤ length out.old) × (16 ≤ n) × (i ≤ n) × (n ≤ i + 32) }
    ensures { Further (drop at s.now) o i n out.old out.new }
{
    let last = n - 16;
    if last <= i {
        copy_sixteen(s, at + last, o + last, out);
        return;
    }
    copy_sixteen(s, at + i, o + i, out);
    copy_sixteen(s, at + last, o + last, out);
}

// Sixteen bytes or more.
fn copy_many(s: &[u8], at: usize, n: usize, o: usize, out: &mut [u8])
    requires { (at + n ≤ length s.now) × (o + n ≤ length out.old) × (16 ≤ n) }
    ensures { out.new ≡ sets out.old o (take n (drop at s.now)) }
{
    let a = copy_blocks(s, at, n, o, out);
    let b = copy_half(s, at, n, a, o, out);
    copy_last(s, at, n, b, o, out);
}

// Stores n bytes of s from a place on, each if there is room for it.
pub fn copy_long(s: &[u8], at: usize, n: usize, o: usize, out: &mut [u8])
    requires { at + n ≤ length s.now }
    ensures { out.new ≡ sets out.old o (take n (drop at s.now)) }
{
    let m = slices::least(n, slices::left(out.len(), o));
    if m < 16 {
        slices::copy_all(s, at, m, o, out);
        return;
    }
    copy_many(s, at, m, o, out);
}
