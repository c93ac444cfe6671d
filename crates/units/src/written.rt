// One unit as it is written, where the byte doesn't stand for itself.
ghost use Rattle.std.specs.Prelude.{[], ◌∷◌, ◌≡◌, ◌<◌, length};
ghost use Rattle.std.proofs.lemmas.List.Edits.{sets};
ghost use Rattle.escapes.specs.Escapes.{lookup, Tells};
ghost use Rattle.units.specs.Written.{hex_digit, by_number, escaped, escape_byte};

use notation::styles;
use notation::styles::Form;
use prelude::slices;

fn hex_digit(d: u8) -> u8
    requires { d < 16 }
    ensures { result ≡ hex_digit d }
{
    if d < 10 {
        return b'0' + d;
    }
    b'a' + (d - 10)
}

// What follows the backslash of a byte's two-byte escape.
fn letter_of(form: Form, x: u8) -> Option<u8>
    ensures { Tells result (lookup x (escaped form)) }
{
    let q = styles::quote_in(form);
    if x == q {
        return Some(q);
    }
    if x == b'\\' {
        return Some(b'\\');
    }
    if x == b'\x08' {
        return Some(b'b');
    }
    if x == b'\x0c' {
        return Some(b'f');
    }
    if x == b'\n' {
        return Some(b'n');
    }
    if x == b'\r' {
        return Some(b'r');
    }
    if x == b'\t' {
        return Some(b't');
    }
    None
}

fn number_len(form: Form, x: u8) -> usize
    ensures { result ≡ length (by_number form x) }
{
    match form {
        Form::AsJson => 6,
        Form::AsBytes => 4,
    }
}

// Stores two bytes, each if there is room for it: most escapes are that long.
fn put_two(a: u8, b: u8, o: usize, out: &mut [u8])
    ensures { out.new ≡ sets out.old o (a ∷ b ∷ []) }
{
    let n = out.len();
    if n <= o {
        return;
    }
    out[o] = a;
    if n - o == 1 {
        return;
    }
    out[o + 1] = b;
}

// Stores a byte by its number, each digit if there is room for it.
fn put_number(form: Form, x: u8, o: usize, out: &mut [u8])
    ensures { out.new ≡ sets out.old o (by_number form x) }
{
    let h = hex_digit(x / 16);
    let l = hex_digit(x % 16);
    match form {
        Form::AsJson => {
            let text = [b'\\', b'u', b'0', b'0', h, l];
            slices::copy_run(&text, 0, 6, o, out);
        }
        Form::AsBytes => {
            let text = [b'\\', b'y', h, l];
            slices::copy_run(&text, 0, 4, o, out);
        }
    }
}

// How long the escape of a byte is.
pub fn escape_len(form: Form, x: u8) -> usize
    ensures { result ≡ length (escape_byte form x) }
{
    match letter_of(form, x) {
        Some(_) => 2,
        None => number_len(form, x),
    }
}

// Stores the escape of a byte, as far as there is room.
pub fn put_escape(form: Form, x: u8, o: usize, out: &mut [u8])
    ensures { out.new ≡ sets out.old o (escape_byte form x) }
{
    match letter_of(form, x) {
        Some(k) => {
            put_two(b'\\', k, o, out);
        }
        None => {
            put_number(form, x, o, out);
        }
    }
}
