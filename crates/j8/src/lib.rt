// The functions of the C interface, which j8_c exports: include/j8.h has each one's words for a caller.
#![tactic(auto)]

ghost use Rattle.std.specs.Prelude.{◌≡◌};
ghost use Rattle.j8.specs.Runs.{version, string_read, string_write, lines_write, sentence_write};

use structs::results;
use structs::results::J8Result;

pub mod sheets;
pub mod tables;
pub mod uploads;

// The version, as j8.h's three numbers have it: 0.3.0.
pub fn j8_version() -> u32
    ensures { result ≡ version }
{
    3_000
}

pub fn j8_string_read(text: &[u8], out: &mut [u8]) -> J8Result
    ensures answer { result ≡ (string_read text.now out.old).result }
    ensures stored { out.new ≡ (string_read text.now out.old).out }
{
    results::of_decoded(strings::read::read(text, out))
}

pub fn j8_string_write(data: &[u8], out: &mut [u8]) -> J8Result
    ensures answer { result ≡ (string_write «data».now out.old).result }
    ensures stored { out.new ≡ (string_write «data».now out.old).out }
{
    results::of_written(strings_write::write::write(data, out))
}

pub fn j8_lines_write(records: &[u8], out: &mut [u8]) -> J8Result
    ensures answer { result ≡ (lines_write records.now out.old).result }
    ensures stored { out.new ≡ (lines_write records.now out.old).out }
{
    results::of_written(lines_write::write::write(records, out))
}

pub fn j8_sentence(number: u32, out: &mut [u8]) -> J8Result
    ensures answer { result ≡ (sentence_write number out.old).result }
    ensures stored { out.new ≡ (sentence_write number out.old).out }
{
    results::of_written(sentences::write(number, out))
}
