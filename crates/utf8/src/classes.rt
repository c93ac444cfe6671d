// The class of each byte value, by one table, and the bytes that are plain.
ghost use Rattle.std.specs.Prelude.{◌≡◌, ◌+◌, ◌*◌, ◌/◌, ◌≤◌, length, drop, leb};
ghost use Rattle.utf8.specs.Class.{class_of, IsTable, plain_run};

// 0 plain, 1 control, 2 `"`, 3 `'`, 4 backslash, 5 continuation, 6 lead of two bytes, 7 lead of three, 8 the lead e0,
// 9 the lead ed, 10 lead of four, 11 the lead f0, 12 the lead f4, 13 never legal. Sixteen entries behind each comment.
const CLASS: [u8; 256] = [
    // 0x00
    1, 1, 1, 1, 1, 1, 1, 1, 1, 1, 1, 1, 1, 1, 1, 1,
    // 0x10
    1, 1, 1, 1, 1, 1, 1, 1, 1, 1, 1, 1, 1, 1, 1, 1,
    // 0x20
    0, 0, 2, 0, 0, 0, 0, 3, 0, 0, 0, 0, 0, 0, 0, 0,
    // 0x30
    0, 0, 0, 0, 0, 0, 0, 0, 0, 0, 0, 0, 0, 0, 0, 0,
    // 0x40
    0, 0, 0, 0, 0, 0, 0, 0, 0, 0, 0, 0, 0, 0, 0, 0,
    // 0x50
    0, 0, 0, 0, 0, 0, 0, 0, 0, 0, 0, 0, 4, 0, 0, 0,
    // 0x60
    0, 0, 0, 0, 0, 0, 0, 0, 0, 0, 0, 0, 0, 0, 0, 0,
    // 0x70
    0, 0, 0, 0, 0, 0, 0, 0, 0, 0, 0, 0, 0, 0, 0, 0,
    // 0x80
    5, 5, 5, 5, 5, 5, 5, 5, 5, 5, 5, 5, 5, 5, 5, 5,
    // 0x90
    5, 5, 5, 5, 5, 5, 5, 5, 5, 5, 5, 5, 5, 5, 5, 5,
    // 0xa0
    5, 5, 5, 5, 5, 5, 5, 5, 5, 5, 5, 5, 5, 5, 5, 5,
    // 0xb0
    5, 5, 5, 5, 5, 5, 5, 5, 5, 5, 5, 5, 5, 5, 5, 5,
    // 0xc0
    13, 13, 6, 6, 6, 6, 6, 6, 6, 6, 6, 6, 6, 6, 6, 6,
    // 0xd0
    6, 6, 6, 6, 6, 6, 6, 6, 6, 6, 6, 6, 6, 6, 6, 6,
    // 0xe0
    8, 7, 7, 7, 7, 7, 7, 7, 7, 7, 7, 7, 7, 9, 7, 7,
    // 0xf0
    11, 10, 10, 10, 12, 13, 13, 13, 13, 13, 13, 13, 13, 13, 13, 13,
];

// The classes of all byte values. A reader makes them once a text and lends them down: a constant array is built anew at every use.
#[derive(Clone, Copy)]
pub struct Classes {
    pub entries: [u8; 256],
    pub ghost rule: { IsTable entries },
}

impl Classes {
    pub fn new() -> Classes
        ensures { IsTable result.entries }
    {
        Classes { entries: CLASS }
    }

    // The class of a byte.
    pub fn class(&self, b: u8) -> u8
        ensures { result ≡ class_of b }
    {
        self.entries[b as usize]
    }
}

// Whether the eight bytes from a place on are plain: plain is class 0, so one test of all eight tells.
fn plain_eight(t: &Classes, s: &[u8], i: usize) -> bool
    requires { (i + 8 ≤ length s.now) }
    ensures { result ≡ leb 8 (plain_run (drop i s.now)) }
{
    let a = t.class(s[i]);
    let b = t.class(s[i + 1]);
    let c = t.class(s[i + 2]);
    let d = t.class(s[i + 3]);
    let e = t.class(s[i + 4]);
    let f = t.class(s[i + 5]);
    let g = t.class(s[i + 6]);
    let h = t.class(s[i + 7]);
    (a | (b | (c | (d | (e | (f | (g | h))))))) == 0
}

// The place behind the whole eights from a place on that are plain.
pub fn plain_eights(t: &Classes, s: &[u8], from: usize) -> usize
    requires { (from ≤ length s.now) }
    ensures { result ≡ from + 8 * (plain_run (drop from s.now) / 8) }
{
    let mut i = from;
    // By while: a turn takes a whole block, and what is left at last is less than one.
    while 8 <= s.len() - i {
        if !plain_eight(t, s, i) {
            return i;
        }
        i += 8;
    }
    i
}
