// What is printed: a J8 text as it is, or as a terminal is shown it.
ghost use Rattle.std.specs.Prelude.{true, false, ◌≡◌, length, pos, IsOk, IsErr};
ghost use Rattle.std.specs.Option.{unwrap_or};
ghost use Rattle.std.specs.IoError.{raw_os_error};
ghost use Rattle.command_outputs.specs.declared.outcomes.Outcome.TheVariants.{Done};
ghost use Rattle.command_outputs.specs.Outcomes.{is_unwritten};
ghost use Rattle.command_outputs.specs.Outputs.{shown_in, is_showable};

use crate::outcomes::Outcome;
use std::io;
use std::io::Print;
use std::rt::Stdout;

// The system's number of an error, 0 where it gave none.
pub fn number_of(error: io::Error) -> i32
    ensures { result ≡ unwrap_or (raw_os_error error) (pos 0) }
{
    match error.raw_os_error() {
        Some(number) => number,
        None => 0,
    }
}

// A J8 text, with what would drive a terminal escaped where one shows it. Whether it is printed is the system's to say, but where there is no
// room to show it.
pub fn print(output: Stdout, bytes: &[u8], terminal: bool, shown: &mut [u8]) -> Result<(), i32>
    ensures value { is_showable terminal bytes.now (length shown.old) ≡ false → IsErr result }
    ensures stored { shown.new ≡ shown_in terminal bytes.now shown.old }
{
    if !terminal {
        return output.write_all(bytes).map_err(number_of);
    }
    match terminals::write(bytes, shown) {
        Ok(n) => {
            let k = command_texts::within(n, shown);
            output.write_all(&shown[..k]).map_err(number_of)
        }
        Err(_) => Err(0),
    }
}

// How a run ends that printed, or couldn't.
pub fn ended(printed: Result<(), i32>) -> Outcome
    ensures { (IsOk printed → result ≡ Done) × (IsErr printed → is_unwritten result ≡ true) }
{
    match printed {
        Ok(()) => Outcome::Done,
        Err(error) => Outcome::Unwritten(error),
    }
}
