// The bytes of a code point.
ghost use Rattle.std.specs.Prelude.{◌≡◌, ◌<◌, ◌≤◌};
ghost use Rattle.utf8.specs.Utf8.{encode, few_of};

// Up to four bytes: the first `count`.
#[derive(Clone, Copy)]
pub struct Few {
    pub count: usize,
    pub a: u8,
    pub b: u8,
    pub c: u8,
    pub d: u8,
}

// The ordinary pattern of a code point, halves included.
pub fn encode(v: u32) -> Few
    requires { v < 0x110000 }
    ensures is { few_of result ≡ encode v }
    ensures few { result.count ≤ 4 }
{
    if v < 0x80 {
        return Few {
            count: 1,
            a: v as u8,
            b: 0,
            c: 0,
            d: 0,
        };
    }
    if v < 0x800 {
        return Few {
            count: 2,
            a: (0xc0 + v / 0x40) as u8,
            b: (0x80 + v % 0x40) as u8,
            c: 0,
            d: 0,
        };
    }
    if v < 0x10000 {
        return Few {
            count: 3,
            a: (0xe0 + v / 0x1000) as u8,
            b: (0x80 + v / 0x40 % 0x40) as u8,
            c: (0x80 + v % 0x40) as u8,
            d: 0,
        };
    }
    Few {
        count: 4,
        a: (0xf0 + v / 0x40000) as u8,
        b: (0x80 + v / 0x1000 % 0x40) as u8,
        c: (0x80 + v / 0x40 % 0x40) as u8,
        d: (0x80 + v % 0x40) as u8,
    }
}
