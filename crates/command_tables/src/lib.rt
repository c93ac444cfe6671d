// JSON8 backups: the written form, and the strings.
#![tactic(auto)]

ghost use Rattle.std.specs.Prelude.{true, ◌≡◌, ◌/◌, ◌≤◌, ◌<◌, length};
ghost use Rattle.prelude.specs.Limits.{text_max};
ghost use Rattle.json8.specs.Read.{read_of, table_after, store_after};
ghost use Rattle.trees.specs.Tables.{nodes_in, tree_of};
ghost use Rattle.json8_write.specs.Write.{wrote_tree};
ghost use Rattle.command_outputs.specs.Outcomes.{is_printed};
ghost use Rattle.command_outputs.specs.declared.outcomes.Outcome.TheVariants.{Long};
ghost use Rattle.command_tables.specs.Runs.{ByWritten, Listed, Rewritten};

use command_outputs::outcomes::Outcome;
use command_outputs::pages::{Form, Page};
use command_outputs::{outcomes, outputs, pages};
use json8_read::read;
use json8_show::show;
use json8_show::show::Shown;
use json8_write::write;
use prelude::limits::TEXT_MAX;
use std::rt::Stdout;

// Puts LF behind a text, unless that would be too long with it.
fn put_end(n: usize, page: &mut [u8]) -> usize {
    if n < TEXT_MAX {
        return command_texts::put(b"\n", n, page);
    }
    n
}

// Prints the written form in the first n bytes of the page.
fn print_written(
    output: Stdout,
    n: usize,
    terminal: bool,
    page: &mut [u8],
    shown: &mut [u8],
) -> Outcome
    ensures { (text_max < n → result ≡ Long n) × (n ≤ text_max → is_printed result ≡ true) }
{
    if n > TEXT_MAX {
        return Outcome::Long(n);
    }
    let e = put_end(n, page);
    let e = command_texts::within(e, page);
    outputs::ended(outputs::print(output, &page[..e], terminal, shown))
}

fn print_table(
    output: Stdout,
    text: &[u8],
    table: &[u32],
    store: &[u8],
    terminal: bool,
    page: &mut [u8],
    shown: &mut [u8],
) -> Outcome
    ensures { ByWritten text.now (wrote_tree (length page.old) (tree_of (nodes_in table.now) text.now store.now)) result }
{
    match write::write(table, text, store, page) {
        Ok(n) => print_written(output, n, terminal, page, shown),
        Err(refusal) => outcomes::refused_at(text, refusal.number(), 0),
    }
}

// Prints a backup in its one written form.
pub fn rewrite(
    output: Stdout,
    text: &[u8],
    terminal: bool,
    table: &mut [u32],
    store: &mut [u8],
    page: &mut [u8],
    shown: &mut [u8],
) -> Outcome
    ensures rewritten { Rewritten text.now table.old store.old (length page.old) result }
    ensures nodes { table.new ≡ table_after (read_of (length table.old / 4) (length store.old) text.now) table.old }
    ensures bytes { store.new ≡ store_after (read_of (length table.old / 4) (length store.old) text.now) store.old }
{
    match read::read(text, table, store) {
        Ok(_) => print_table(output, text, table, store, terminal, page, shown),
        Err(f) => outcomes::refused_at(text, f.refusal.number(), f.place),
    }
}

// The part of a buffer that a node shows.
fn list_part(
    output: Stdout,
    p: Page,
    node: usize,
    buf: &[u8],
    place: usize,
    size: usize,
    page: &mut [u8],
    shown: &mut [u8],
) -> Page {
    if buf.len() < place {
        return p;
    }
    if buf.len() - place < size {
        return p;
    }
    let end = place + size;
    pages::add(output, p, Form::Entry, node, &buf[place..end], page, shown)
}

fn list_node(
    output: Stdout,
    p: Page,
    text: &[u8],
    table: &[u32],
    store: &[u8],
    node: usize,
    page: &mut [u8],
    shown: &mut [u8],
) -> Page {
    match show::shown_at(table, text.len(), store.len(), node) {
        Some(Shown::InText(place, size)) => {
            list_part(output, p, node, text, place, size, page, shown)
        }
        Some(Shown::InStore(place, size)) => {
            list_part(output, p, node, store, place, size, page, shown)
        }
        None => p,
    }
}

fn list_nodes(
    output: Stdout,
    nodes: usize,
    text: &[u8],
    terminal: bool,
    table: &[u32],
    store: &[u8],
    page: &mut [u8],
    shown: &mut [u8],
) -> Outcome
    ensures { is_printed result ≡ true }
{
    let mut p = pages::fresh(terminal);
    for node in 0..nodes {
        p = list_node(output, p, text, table, store, node, page, shown);
    }
    pages::outcome_of(pages::flush(output, p, page, shown))
}

// Prints each string of a backup with its node.
pub fn list(
    output: Stdout,
    text: &[u8],
    terminal: bool,
    table: &mut [u32],
    store: &mut [u8],
    page: &mut [u8],
    shown: &mut [u8],
) -> Outcome
    ensures listed { Listed text.now table.old store.old result }
    ensures nodes { table.new ≡ table_after (read_of (length table.old / 4) (length store.old) text.now) table.old }
    ensures bytes { store.new ≡ store_after (read_of (length table.old / 4) (length store.old) text.now) store.old }
{
    match read::read(text, table, store) {
        Ok(parsed) => list_nodes(
            output,
            parsed.nodes,
            text,
            terminal,
            table,
            store,
            page,
            shown,
        ),
        Err(f) => outcomes::refused_at(text, f.refusal.number(), f.place),
    }
}
