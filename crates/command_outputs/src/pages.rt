// The page: texts one behind another, printed when it is full.
ghost use Rattle.std.specs.Prelude.{[], ◌∷◌, ◌++◌, ◌≡◌, length};
ghost use Rattle.entries.specs.Entries.{entry_text, cell_text};
ghost use Rattle.command_texts.specs.Texts.{PutWhole};
ghost use Rattle.command_outputs.specs.Pages.{fresh_page, form_text, page_outcome, Printed, Added};

use crate::outcomes::Outcome;
use crate::outputs;
use std::rt::Stdout;

// The bytes that wait to be printed, whether a terminal shows them, and what the system says if something before them couldn't be printed.
#[derive(Clone, Copy)]
pub struct Page {
    pub at: usize,
    pub terminal: bool,
    pub failure: Option<i32>,
}

pub fn fresh(terminal: bool) -> Page
    ensures { result ≡ fresh_page terminal }
{
    Page {
        at: 0,
        terminal,
        failure: None,
    }
}

// What a text becomes on the page: a string under its number, or its bytes with one behind them.
#[derive(Clone, Copy)]
pub enum Form {
    Entry,
    Raw(u8),
}

// Prints the page, which is empty then.
pub fn flush(output: Stdout, p: Page, page: &[u8], shown: &mut [u8]) -> Page
    ensures { (result.at ≡ 0) × Printed p page.now shown.old result shown.new }
{
    let mut p = p;
    let n = command_texts::within(p.at, page);
    p.at = 0;
    match outputs::print(output, &page[..n], p.terminal, shown) {
        Ok(()) => p,
        Err(error) => {
            p.failure = Some(error);
            p
        }
    }
}

// The bytes and one behind them.
fn put_ended(s: &[u8], end: u8, at: usize, page: &mut [u8]) -> usize
    ensures { PutWhole (s.now ++ (end ∷ [])) at result page.old page.new }
{
    if page.len() < at {
        return at;
    }
    if page.len() - at <= s.len() {
        return at;
    }
    let e = command_texts::put(s, at, page);
    command_texts::put(&[end], e, page)
}

fn put_entry(n: usize, s: &[u8], at: usize, page: &mut [u8]) -> usize
    ensures { PutWhole (entry_text n s.now) at result page.old page.new }
{
    if page.len() < at {
        return at;
    }
    let written = entries::write(n, s, &mut page[at..]);
    command_texts::behind(written, at, page)
}

// Puts a text on the page: the place behind it, or the same place where it doesn't fit.
fn put_form(form: Form, n: usize, s: &[u8], at: usize, page: &mut [u8]) -> usize
    ensures { PutWhole (form_text form n s.now) at result page.old page.new }
{
    match form {
        Form::Entry => put_entry(n, s, at, page),
        Form::Raw(end) => put_ended(s, end, at, page),
    }
}

// The same, on an empty page if this one is full.
pub fn add(
    output: Stdout,
    p: Page,
    form: Form,
    n: usize,
    s: &[u8],
    page: &mut [u8],
    shown: &mut [u8],
) -> Page
    ensures { Added p (form_text form n s.now) page.old shown.old result page.new shown.new }
{
    let mut p = p;
    let at = put_form(form, n, s, p.at, page);
    if p.at < at {
        p.at = at;
        return p;
    }
    p = flush(output, p, page, shown);
    p.at = put_form(form, n, s, 0, page);
    p
}

fn put_cell(
    row: usize,
    name: &[u8],
    quoted: bool,
    value: &[u8],
    at: usize,
    page: &mut [u8],
) -> usize
    ensures { PutWhole (cell_text row name.now quoted value.now) at result page.old page.new }
{
    if page.len() < at {
        return at;
    }
    let written = entries::write_cell(row, name, quoted, value, &mut page[at..]);
    command_texts::behind(written, at, page)
}

// The same of a cell of a log.
pub fn add_cell(
    output: Stdout,
    p: Page,
    row: usize,
    name: &[u8],
    quoted: bool,
    value: &[u8],
    page: &mut [u8],
    shown: &mut [u8],
) -> Page
    ensures { Added p (cell_text row name.now quoted value.now) page.old shown.old result page.new shown.new }
{
    let mut p = p;
    let at = put_cell(row, name, quoted, value, p.at, page);
    if p.at < at {
        p.at = at;
        return p;
    }
    p = flush(output, p, page, shown);
    p.at = put_cell(row, name, quoted, value, 0, page);
    p
}

// What came of it.
pub fn outcome_of(p: Page) -> Outcome
    ensures { result ≡ page_outcome p }
{
    match p.failure {
        Some(error) => Outcome::Unwritten(error),
        None => Outcome::Done,
    }
}
