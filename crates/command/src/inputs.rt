// The input: a file that an argument names, or standard input.
ghost use Rattle.std.specs.Prelude.{length, ◌≤◌};

use check::same;
use command_outputs::outputs;
use command_words::arguments::Fault;
use std::io::Read;
use std::rt::Env;

// The most bytes of a file's name.
pub(crate) const NAME_MAX: usize = 4095;

// The file that an argument names, by how many bytes its name has, or None for standard input; or what is wrong with the name. The buffer is for it.
pub(crate) fn file_at<E: Env>(
    words: &E,
    argument: Option<usize>,
    path: &mut [u8],
) -> Result<Option<usize>, Fault> {
    let Some(i) = argument else {
        return Ok(None);
    };
    match words.arg(i, path) {
        Ok(n) => file_named(&path[..n]),
        Err(_) => Err(Fault::LongName),
    }
}

fn file_named(path: &[u8]) -> Result<Option<usize>, Fault> {
    let n = path.len();
    if n == 0 {
        return Err(Fault::EmptyName);
    }
    if n > NAME_MAX {
        return Err(Fault::LongName);
    }
    if same(path, b"-") {
        return Ok(None);
    }
    Ok(Some(n))
}

// One read into a buffer from a place on: how many bytes there were, or what the system says.
fn read_from<R: Read>(input: &mut R, buf: &mut [u8], from: usize) -> Result<usize, i32>
    requires { from ≤ length buf.old }
{
    input.read(&mut buf[from..]).map_err(outputs::number_of)
}

// Reads until buf is full or the input ends.
pub(crate) fn fill<R: Read>(input: &mut R, buf: &mut [u8]) -> Result<usize, i32> {
    let mut n = 0;
    // By while: a turn goes on by as many bytes as the input gives.
    while n < buf.len() {
        let got = read_from(input, buf, n)?;
        let k = command_texts::within(got, &buf[n..]);
        if k == 0 {
            return Ok(n);
        }
        n += k;
    }
    Ok(n)
}
