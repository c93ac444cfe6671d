// Parts of a text, put at a place as far as room and buffer reach. A place past the room says that the text is too long: nothing more is
// put, so no count can run over.
ghost use Rattle.std.specs.Prelude.{[], ◌∷◌, ◌≡◌, ◌+◌, ◌≤◌, length, take, drop};
ghost use Rattle.utf8.specs.Utf8.{valid_utf8};
ghost use Rattle.strings_write.specs.Write.{write_string};
ghost use Rattle.rooms.specs.inner.Puts.{room_max, Put};

use prelude::slices;
use strings_write::write;
use utf8::classes::Classes;

// n bytes of s from a place on.
pub fn put_run(s: &[u8], at: usize, n: usize, room: usize, o: usize, out: &mut [u8]) -> usize
    requires { (at + n ≤ length s.now) × (room ≤ room_max) }
    ensures { Put (take n (drop at s.now)) room o result out.old out.new }
{
    if room < o {
        return o;
    }
    if room - o < n {
        slices::copy_run(s, at, room - o, o, out);
        return room + 1;
    }
    slices::copy_run(s, at, n, o, out);
    o + n
}

// All bytes of s.
pub fn put_all(s: &[u8], room: usize, o: usize, out: &mut [u8]) -> usize
    requires { room ≤ room_max }
    ensures { Put s.now room o result out.old out.new }
{
    put_run(s, 0, s.len(), room, o, out)
}

pub fn put_byte(x: u8, room: usize, o: usize, out: &mut [u8]) -> usize
    requires { room ≤ room_max }
    ensures { Put (x ∷ []) room o result out.old out.new }
{
    if room <= o {
        if room < o {
            return o;
        }
        return room + 1;
    }
    slices::put(x, o, out);
    o + 1
}

// A byte string, quoted.
pub fn put_string(t: &Classes, s: &[u8], room: usize, o: usize, out: &mut [u8]) -> usize
    requires { room ≤ room_max }
    ensures { Put (write_string s.now) room o result out.old out.new }
{
    if room < o {
        return o;
    }
    let b = slices::least(o, out.len());
    match write::write_run(t, s, room - o, &mut out[b..]) {
        Some(m) => o + m,
        None => room + 1,
    }
}

// The same where it is known whether the bytes are valid UTF-8.
pub fn put_part(t: &Classes, valid: bool, s: &[u8], room: usize, o: usize, out: &mut [u8]) -> usize
    requires { (valid ≡ valid_utf8 s.now) × (room ≤ room_max) }
    ensures { Put (write_string s.now) room o result out.old out.new }
{
    if room < o {
        return o;
    }
    let b = slices::least(o, out.len());
    match write::write_part(t, valid, s, room - o, &mut out[b..]) {
        Some(m) => o + m,
        None => room + 1,
    }
}
