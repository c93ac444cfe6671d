// Eight bytes at once, as one number of 64 bits, and tests of each of them.
#![tactic(auto)]

ghost use Rattle.std.specs.Prelude.{Bool, ◌≡◌, ℕ, ◌+◌, ◌<◌, ◌≤◌, eqb, length, get_or, take, drop};
ghost use Rattle.std.proofs.lemmas.List.Edits.{sets};
ghost use Rattle.eights.specs.inner.Words.{Bytes, word, bit, is_odd, is_other, First};

// The first eight bytes as a number, the first lowest. By constant places, so that any compiler makes it one load.
fn front(p: &[u8]) -> u64
    requires { 8 ≤ length p.now }
    ensures { (result ≡ word (λ k. get_or p.now k 0) 8) × Bytes (λ k. get_or p.now k 0) 8 }
{
    p[0] as u64
        + ((p[1] as u64) << 8)
        + ((p[2] as u64) << 16)
        + ((p[3] as u64) << 24)
        + ((p[4] as u64) << 32)
        + ((p[5] as u64) << 40)
        + ((p[6] as u64) << 48)
        + ((p[7] as u64) << 56)
}

// Eight bytes from a place on.
pub fn eight(s: &[u8], at: usize) -> u64
    requires { at + 8 ≤ length s.now }
    ensures { (result ≡ word (λ k. get_or s.now (at + k) 0) 8) × Bytes (λ k. get_or s.now (at + k) 0) 8 }
{
    front(&s[at..])
}

// Of eight bytes the high bit of each that isn't plain. The low seven bits of a byte are tested by sums that stay below 256, so that
// no byte touches the next.
pub fn odds(v: u64) -> u64
    ensures { (f : ℕ → ℕ) → Bytes f 8 → v ≡ word f 8 → result ≡ word (λ k. bit (is_odd (f k))) 8 }
{
    let l = v & 0x7f7f7f7f7f7f7f7f;
    let a = l + 0x6060606060606060;
    let b = (l ^ 0x2222222222222222) + 0x7f7f7f7f7f7f7f7f;
    let c = (l ^ 0x2727272727272727) + 0x7f7f7f7f7f7f7f7f;
    let d = (l ^ 0x5c5c5c5c5c5c5c5c) + 0x7f7f7f7f7f7f7f7f;
    (((a & (b & (c & d))) ^ 0xffffffffffffffff) | v) & 0x8080808080808080
}

// Of eight bytes the high bit of each that is no digit.
pub fn others(v: u64) -> u64
    ensures { (f : ℕ → ℕ) → Bytes f 8 → v ≡ word f 8 → result ≡ word (λ k. bit (is_other (f k))) 8 }
{
    let l = v & 0x7f7f7f7f7f7f7f7f;
    let a = (l ^ 0x3030303030303030) + 0x7676767676767676;
    (a | v) & 0x8080808080808080
}

// Of eight bytes the high bit of each that is a backslash.
pub fn slashes(v: u64) -> u64
    ensures { (f : ℕ → ℕ) → Bytes f 8 → v ≡ word f 8 → result ≡ word (λ k. bit (eqb (f k) 0x5c)) 8 }
{
    let l = v & 0x7f7f7f7f7f7f7f7f;
    let d = (l ^ 0x5c5c5c5c5c5c5c5c) + 0x7f7f7f7f7f7f7f7f;
    ((d | v) ^ 0xffffffffffffffff) & 0x8080808080808080
}

// The first of eight places whose high bit is set; 8 where none is.
pub fn place(w: u64) -> usize
    ensures { (g : ℕ → Bool) → w ≡ word (λ k. bit (g k)) 8 → First g 8 result }
{
    (u64::trailing_zeros(w) / 8) as usize
}

// Stores eight bytes of s. All are read first, so that they are stored at once.
pub fn copy(s: &[u8], at: usize, o: usize, out: &mut [u8])
    requires { (at + 8 ≤ length s.now) × (o + 8 ≤ length out.old) }
    ensures { out.new ≡ sets out.old o (take 8 (drop at s.now)) }
{
    let b0 = s[at];
    let b1 = s[at + 1];
    let b2 = s[at + 2];
    let b3 = s[at + 3];
    let b4 = s[at + 4];
    let b5 = s[at + 5];
    let b6 = s[at + 6];
    let b7 = s[at + 7];
    out[o] = b0;
    out[o + 1] = b1;
    out[o + 2] = b2;
    out[o + 3] = b3;
    out[o + 4] = b4;
    out[o + 5] = b5;
    out[o + 6] = b6;
    out[o + 7] = b7;
}
