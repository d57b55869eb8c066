// The key of a sheet, its loading date and a list of calls that stand in slices: the program's whole text.
ghost use Rattle.std.specs.Prelude.{◌+◌, ◌*◌, ◌/◌, ◌≤◌, length};
ghost use Rattle.std.specs.Counts.{IsPrefixLen};
ghost use Rattle.retimer.specs.Bytes.{Wrote};
ghost use Rattle.marking.specs.Marks.{key_text};

use crate::block;
use report::line;
use retimer::limits::Monitor;

// Writes the line of the sheet and, where it loads at that date, those of the calls; answers the text's size.
pub fn key(sheet: &[u8], loaded: u32, calls: &[u8], out: &mut [u8]) -> usize
    requires { 128 + (120 * (length calls.now / 5) + 120) ≤ length out.old }
    ensures wrote { Wrote out.old 0 (key_text sheet.now loaded calls.now) out.new result }
    ensures prefix_len { IsPrefixLen result out.new }
{
    let start = Monitor::load(sheet, loaded);
    let checked = start.checked;
    let first = line::checked_line(out, 0, checked);
    let Ok(_) = checked else {
        return first;
    };
    let fresh = start.monitor;
    let marked = block::mark(fresh, calls, 0, &mut out[first..]);
    first + marked.size
}
