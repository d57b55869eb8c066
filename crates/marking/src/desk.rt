// The desk program: a sheet and calls from standard input, and the lines to standard output; and the same with a loading date before the sheet. What fills a buffer is promised where it is filled; here
// is only reading, writing and handing on. A read or a write that fails ends the program with its error.
ghost use Rattle.std.specs.Prelude.{◌≡◌, ◌+◌, length, IfOk};
ghost use Rattle.std.specs.Counts.{IsPrefixLen};
ghost use Rattle.enforcement.specs.Limits.{max_size};
ghost use Rattle.retimer.specs.View.{Valid};

use crate::{block, input};
use report::line;
use retimer::limits::Monitor;
use retimer::reason::Reason;
use retimer::sheet::Counts;
use std::io;
use std::io::Read;

// No input has as many calls.
const LAST: u64 = u64::MAX - block::CALLS as u64;

// Reads until the buffer is full or the input ends; answers how many bytes there were.
fn read_full<R: Read>(reader: &mut R, buffer: &mut [u8]) -> io::Result<usize>
    ensures { IfOk result (λ n. IsPrefixLen n buffer.new) }
{
    let mut done = 0;
    // A `for` is no plainer: a read gives as many bytes as there are.
    while done < buffer.len() {
        let size = reader.read(&mut buffer[done..])?;
        if size == 0 {
            break;
        }
        done += size;
    }
    Ok(done)
}

// Reads the sheet's length and as many bytes more; answers how many bytes there were.
fn read_sheet<R: Read>(reader: &mut R, front: &mut [u8]) -> io::Result<usize>
    requires { length front.old ≡ 2 + max_size }
    ensures { IfOk result (λ n. IsPrefixLen n front.new) }
{
    let head = read_full(reader, &mut front[..input::HEAD])?;
    let end = input::HEAD + input::size_in(&front[..head]);
    let rest = read_full(reader, &mut front[input::HEAD..end])?;
    Ok(head + rest)
}

// Prints the line of what the check of a sheet answered.
pub fn print_checked(rt: &impl Print, c: Result<Counts, Reason>) -> io::Result<()> {
    let mut out = [0u8; line::SHEET];
    let end = line::checked_line(&mut out, 0, c);
    rt.write_all(&out[..end])
}

// Marks the calls of the input, a block at a time, each with the box and the number of calls that the one before gave.
#[inline(never)]
fn mark_calls<R: Read>(rt: &impl Print, reader: &mut R, start: Monitor) -> io::Result<()>
    requires { Valid start }
{
    let mut b = start;
    let mut n: u64 = 0;
    // A `for` is no plainer: the number of calls is what the block before gave.
    while n < LAST {
        let mut calls = [0u8; block::BYTES];
        let size = read_full(reader, &mut calls)?;
        if size == 0 {
            return Ok(());
        }
        let mut out = [0u8; block::LINES];
        let marked = block::mark(b, &calls[..size], n, &mut out);
        let end = marked.size;
        rt.write_all(&out[..end])?;
        if size < block::BYTES {
            return Ok(());
        }
        b = marked.monitor;
        n = marked.calls;
    }
    Ok(())
}

// Loads the sheet of the input at a date, and marks the calls behind it.
fn mark_input<R: Read>(rt: &impl Print, reader: &mut R, loaded: u32) -> io::Result<()> {
    let mut front = [0u8; input::FRONT];
    let size = read_sheet(reader, &mut front)?;
    let start = input::load(&front[..size], loaded);
    let checked = start.checked;
    let Ok(_) = checked else {
        return print_checked(rt, checked);
    };
    print_checked(rt, checked)?;
    let fresh = start.monitor;
    mark_calls(rt, reader, fresh)
}

// The whole program: the box is loaded at date 0.
pub fn run(rt: &(impl Input + Print)) -> io::Result<()> {
    let mut reader = rt.reader();
    mark_input(rt, &mut reader, 0)
}

// The same for input that begins with the loading date.
pub fn run_at(rt: &(impl Input + Print)) -> io::Result<()> {
    let mut reader = rt.reader();
    let mut head = [0u8; input::DATE];
    let size = read_full(&mut reader, &mut head)?;
    mark_input(rt, &mut reader, input::date_in(&head[..size]))
}
