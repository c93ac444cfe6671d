// The words behind the program's name, one by one.
ghost use Rattle.std.specs.Prelude.{◌≡◌};
ghost use Rattle.command_words.specs.Arguments.{reader_of, command_of, options_of, option_of, size_of, with_fault, with_size, with_file, with_option, has_size, with_sized, is_option, with_word, fresh_options, with_argument, with_long, all_checked};

use check::same;

// The most bytes that are read at once.
pub const PIECE: usize = 4096;

#[derive(Clone, Copy)]
pub enum Command {
    Help,
    Version,
    Lines,
    Quote,
    Unquote,
    Json8,
    Strings,
    Tsv8,
    Missing,
    Unknown,
}

// Options, a bit for each.
pub const JSON: u32 = 1;

pub const HELP: u32 = 2;

pub const PIECES: u32 = 4;

pub const LINE: u32 = 8;

pub const LINES: u32 = 16;

pub const NUL: u32 = 32;

// What can be wrong with the words, in the order of the lines of `reports::put_fault`.
#[derive(Clone, Copy)]
pub enum Fault {
    NoCommand,
    NoOption,
    SecondFile,
    EmptyName,
    LongName,
    BadSize,
    LineAndLines,
}

// What is wrong, and the argument that it is about, if it is one.
#[derive(Clone, Copy)]
pub struct Wrong {
    pub fault: Fault,
    pub argument: Option<usize>,
}

// The words behind the command: its options, the size of pieces, the argument that names the file; what is wrong; whether options have ended, and
// whether a size is still to come.
#[derive(Clone, Copy)]
pub struct Options {
    pub flags: u32,
    pub size: usize,
    pub file: Option<usize>,
    pub wrong: Option<Wrong>,
    ended: bool,
    sized: bool,
}

fn command_that_reads(word: &[u8]) -> Command
    ensures { result ≡ reader_of word.now }
{
    if same(word, b"lines") {
        return Command::Lines;
    }
    if same(word, b"quote") {
        return Command::Quote;
    }
    if same(word, b"unquote") {
        return Command::Unquote;
    }
    if same(word, b"json8") {
        return Command::Json8;
    }
    if same(word, b"strings") {
        return Command::Strings;
    }
    if same(word, b"tsv8") {
        return Command::Tsv8;
    }
    Command::Unknown
}

// The command that a word names.
pub fn command_of(word: &[u8]) -> Command
    ensures { result ≡ command_of word.now }
{
    if same(word, b"help") {
        return Command::Help;
    }
    if same(word, b"--help") {
        return Command::Help;
    }
    if same(word, b"-h") {
        return Command::Help;
    }
    if same(word, b"--version") {
        return Command::Version;
    }
    command_that_reads(word)
}

// The options that a command has.
pub fn options_of(command: Command) -> u32
    ensures { result ≡ options_of command }
{
    match command {
        Command::Lines => JSON | HELP | PIECES,
        Command::Quote => JSON | HELP | LINE | LINES | NUL,
        Command::Unquote => JSON | HELP | LINES | NUL,
        Command::Help => JSON | HELP,
        Command::Version => JSON | HELP,
        Command::Json8 => JSON | HELP,
        Command::Strings => JSON | HELP,
        Command::Tsv8 => JSON | HELP,
        Command::Missing => JSON | HELP,
        Command::Unknown => JSON | HELP,
    }
}

fn option_of(word: &[u8]) -> u32
    ensures { result ≡ option_of word.now }
{
    if same(word, b"--json") {
        return JSON;
    }
    if same(word, b"--help") {
        return HELP;
    }
    if same(word, b"-h") {
        return HELP;
    }
    if same(word, b"--pieces") {
        return PIECES;
    }
    if same(word, b"--line") {
        return LINE;
    }
    if same(word, b"--lines") {
        return LINES;
    }
    if same(word, b"-0") {
        return NUL;
    }
    0
}

// A number of bytes from 1 to a whole piece.
fn size_of(word: &[u8]) -> Option<usize>
    ensures { result ≡ size_of word.now }
{
    let mut size = 0;
    for i in 0..word.len() {
        let x = word[i];
        if x < b'0' {
            return None;
        }
        if x > b'9' {
            return None;
        }
        size = 10 * size + (x - b'0') as usize;
        if size > PIECE {
            return None;
        }
    }
    if size == 0 {
        return None;
    }
    Some(size)
}

// The first fault counts.
fn faulty(o: Options, fault: Fault, argument: Option<usize>) -> Options
    ensures { result ≡ with_fault o fault argument }
{
    if o.wrong.is_some() {
        return o;
    }
    let mut o = o;
    o.wrong = Some(Wrong { fault, argument });
    o
}

fn with_size(o: Options, size: Option<usize>, i: usize) -> Options
    ensures { result ≡ with_size o size i }
{
    match size {
        None => faulty(o, Fault::BadSize, Some(i)),
        Some(size) => {
            let mut o = o;
            o.size = size;
            o
        }
    }
}

fn with_file(o: Options, i: usize) -> Options
    ensures { result ≡ with_file o i }
{
    if o.file.is_some() {
        return faulty(o, Fault::SecondFile, Some(i));
    }
    let mut o = o;
    o.file = Some(i);
    o
}

fn with_option(o: Options, bit: u32, known: u32, i: usize) -> Options
    ensures { result ≡ with_option o bit known i }
{
    if bit & known == 0 {
        return faulty(o, Fault::NoOption, Some(i));
    }
    let mut o = o;
    o.flags = o.flags | bit;
    o.sized = bit == PIECES;
    o
}

// The size in `--pieces=N`.
const SIZE_AT: usize = 9;

fn has_size(word: &[u8]) -> bool
    ensures { result ≡ has_size word.now }
{
    if word.len() < SIZE_AT {
        return false;
    }
    same(&word[..SIZE_AT], b"--pieces=")
}

fn with_sized(o: Options, word: &[u8], known: u32, i: usize) -> Options
    ensures { result ≡ with_sized o word.now known i }
{
    if known & PIECES == 0 {
        return faulty(o, Fault::NoOption, Some(i));
    }
    if word.len() < SIZE_AT {
        return faulty(o, Fault::BadSize, Some(i));
    }
    with_size(o, size_of(&word[SIZE_AT..]), i)
}

// Whether a word is an option: `-` alone is standard input.
fn is_option(word: &[u8]) -> bool
    ensures { result ≡ is_option word.now }
{
    if word.len() < 2 {
        return false;
    }
    word[0] == b'-'
}

fn with_word(o: Options, word: &[u8], known: u32, i: usize) -> Options
    ensures { result ≡ with_word o word.now known i }
{
    if !is_option(word) {
        return with_file(o, i);
    }
    if same(word, b"--") {
        let mut o = o;
        o.ended = true;
        return o;
    }
    if has_size(word) {
        return with_sized(o, word, known, i);
    }
    with_option(o, option_of(word), known, i)
}

// No word is read yet.
pub fn fresh() -> Options
    ensures { result ≡ fresh_options }
{
    Options {
        flags: 0,
        size: PIECE,
        file: None,
        wrong: None,
        ended: false,
        sized: false,
    }
}

// Argument i, for a command with these options.
pub fn with_argument(o: Options, word: &[u8], known: u32, i: usize) -> Options
    ensures { result ≡ with_argument o word.now known i }
{
    if o.sized {
        let mut o = o;
        o.sized = false;
        return with_size(o, size_of(word), i);
    }
    if o.ended {
        return with_file(o, i);
    }
    with_word(o, word, known, i)
}

// The same of a word that is longer than any option and any size, by its first byte.
pub fn with_long(o: Options, first: u8, i: usize) -> Options
    ensures { result ≡ with_long o first i }
{
    if o.sized {
        let mut o = o;
        o.sized = false;
        return with_size(o, None, i);
    }
    if o.ended {
        return with_file(o, i);
    }
    if first == b'-' {
        return faulty(o, Fault::NoOption, Some(i));
    }
    with_file(o, i)
}

// What can only be told of all words.
pub fn checked(o: Options) -> Options
    ensures { result ≡ all_checked o }
{
    if o.sized {
        return faulty(o, Fault::BadSize, None);
    }
    if o.flags & LINE == 0 {
        return o;
    }
    if o.flags & (LINES | NUL) == 0 {
        return o;
    }
    faulty(o, Fault::LineAndLines, None)
}
