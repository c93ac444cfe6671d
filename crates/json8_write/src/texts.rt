// JSON8's own words and marks, put at a place as far as room and buffer reach.
ghost use Rattle.std.specs.Prelude.{[], ◌∷◌, ◌≤◌};
ghost use Rattle.rooms.specs.inner.Puts.{room_max, Put};
ghost use Rattle.tokens.specs.Words.{null_word, false_word, true_word};
ghost use Rattle.trees.specs.Trees.{comma, open_of, render};
ghost use Rattle.json8.specs.Values.{close_of};
ghost use Rattle.json8_fit.specs.inner.Steps.{word_of};

use json8::nodes::Sort;
use rooms::parts;

fn put_null(room: usize, o: usize, out: &mut [u8]) -> usize
    requires { room ≤ room_max }
    ensures { Put null_word room o result out.old out.new }
{
    parts::put_run(b"null", 0, 4, room, o, out)
}

fn put_false(room: usize, o: usize, out: &mut [u8]) -> usize
    requires { room ≤ room_max }
    ensures { Put false_word room o result out.old out.new }
{
    parts::put_run(b"false", 0, 5, room, o, out)
}

fn put_true(room: usize, o: usize, out: &mut [u8]) -> usize
    requires { room ≤ room_max }
    ensures { Put true_word room o result out.old out.new }
{
    parts::put_run(b"true", 0, 4, room, o, out)
}

// The word of a kind, 0 to 2.
pub(crate) fn put_word(kind: u32, room: usize, o: usize, out: &mut [u8]) -> usize
    requires { room ≤ room_max }
    ensures { Put (render (word_of kind)) room o result out.old out.new }
{
    if kind == 0 {
        return put_null(room, o, out);
    }
    if kind == 1 {
        return put_false(room, o, out);
    }
    put_true(room, o, out)
}

// The comma before a member that isn't the first.
pub(crate) fn put_comma(first: bool, room: usize, o: usize, out: &mut [u8]) -> usize
    requires { room ≤ room_max }
    ensures { Put (comma first) room o result out.old out.new }
{
    if first {
        return o;
    }
    parts::put_byte(b',', room, o, out)
}

pub(crate) fn put_open(sort: Sort, room: usize, o: usize, out: &mut [u8]) -> usize
    requires { room ≤ room_max }
    ensures { Put (open_of sort ∷ []) room o result out.old out.new }
{
    match sort {
        Sort::Items => parts::put_byte(b'[', room, o, out),
        Sort::Pairs => parts::put_byte(b'{', room, o, out),
    }
}

pub(crate) fn put_close(sort: Sort, room: usize, o: usize, out: &mut [u8]) -> usize
    requires { room ≤ room_max }
    ensures { Put (close_of sort ∷ []) room o result out.old out.new }
{
    match sort {
        Sort::Items => parts::put_byte(b']', room, o, out),
        Sort::Pairs => parts::put_byte(b'}', room, o, out),
    }
}
