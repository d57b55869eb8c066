// Questions: for each its title, and the desk program's lines for its sheet and calls.
use drafting::{field, script};
use marking::{block, key};
use report::line;
use retimer::limits::Monitor;
use std::io;

// A question whose sheet and calls are bytes, a block of calls at the most, on a box that is loaded at a date.
fn ask_loaded(
    rt: &impl Print,
    title: &[u8],
    sheet: &[u8],
    loaded: u32,
    calls: &[u8],
) -> io::Result<()> {
    rt.write_all(title)?;
    rt.write_all(b"\n")?;
    if block::BYTES < calls.len() {
        return Ok(());
    }
    let mut out = [0u8; line::SHEET + block::LINES];
    let end = key::key(sheet, loaded, calls, &mut out);
    rt.write_all(&out[..end])
}

// The same at date 0.
pub fn ask_bytes(rt: &impl Print, title: &[u8], sheet: &[u8], calls: &[u8]) -> io::Result<()> {
    ask_loaded(rt, title, sheet, 0, calls)
}

// A question whose calls are text.
fn ask(rt: &impl Print, title: &[u8], sheet: &[u8], loaded: u32, calls: &[u8]) -> io::Result<()> {
    let mut list = [0u8; block::BYTES];
    let n = script::calls_of(calls, &mut list);
    ask_loaded(rt, title, sheet, loaded, &list[..n])
}

// A question whose sheet is the first n of some bytes.
pub fn ask_front(
    rt: &impl Print,
    title: &[u8],
    bytes: &[u8],
    n: usize,
    calls: &[u8],
) -> io::Result<()> {
    if n <= bytes.len() {
        return ask(rt, title, &bytes[..n], 0, calls);
    }
    Ok(())
}

// A question whose sheet is text: a course sheet's letter, or its bytes as numbers.
fn ask_text(
    rt: &impl Print,
    title: &[u8],
    sheet: &[u8],
    loaded: u32,
    calls: &[u8],
) -> io::Result<()> {
    match field::capital(sheet) {
        Some(b'A') => ask(rt, title, &course::sheet_a(), loaded, calls),
        Some(b'B') => ask(rt, title, &course::sheet_b(), loaded, calls),
        Some(b'C') => ask(rt, title, &course::sheet_c(), loaded, calls),
        Some(b'D') => ask(rt, title, &course::sheet_d(), loaded, calls),
        Some(b'E') => ask(rt, title, &course::sheet_e(), loaded, calls),
        _ => ask_numbers(rt, title, sheet, loaded, calls),
    }
}

fn ask_numbers(
    rt: &impl Print,
    title: &[u8],
    sheet: &[u8],
    loaded: u32,
    calls: &[u8],
) -> io::Result<()> {
    let mut bytes = [0u8; Monitor::SIZE];
    let n = script::bytes_of(sheet, &mut bytes);
    ask(rt, title, &bytes[..n], loaded, calls)
}

// A line: the title, the sheet, the calls and why its answers are as they are, with semicolons between them. The last is for the reader.
fn ask_line(rt: &impl Print, loaded: u32, line: &[u8]) -> io::Result<()> {
    let title = field::find(line, 0, b';');
    let sheet = field::find(line, title + 1, b';');
    let calls = field::find(line, sheet + 1, b';');
    ask_text(
        rt,
        &line[..title],
        &line[title..sheet],
        loaded,
        &line[sheet..calls],
    )
}

// A table of questions, one to a line, each on a box that is loaded at the date.
pub fn ask_all_at(rt: &impl Print, loaded: u32, table: &[u8]) -> io::Result<()> {
    for line in table.split_inclusive(|b| *b == b'\n') {
        ask_line(rt, loaded, line)?;
    }
    Ok(())
}

// The same at date 0.
pub fn ask_all(rt: &impl Print, table: &[u8]) -> io::Result<()> {
    ask_all_at(rt, 0, table)
}
