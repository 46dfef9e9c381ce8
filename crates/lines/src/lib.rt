// What every listing has, whatever it lists: how far it has come, and the lines that end it. Whoever lists
// holds a `Progress`, and beside it the state of what is listed, and asks for one line after the other.
#![tactic(auto)]

ghost use Rattle.std.specs.Prelude.{◌+◌, ◌≤◌, length};
ghost use Rattle.lines.specs.Lines.{most_line, last_line};
ghost use Rattle.lines.specs.Promises.{StartsListing, Goes, PutsLine, PutsColumns, PutsLast};
ghost use Rattle.lines.specs.Promises.{PutsEnd, PutsStop, PutsTooLong};

mod listing;

pub use listing::{Listed, Listing};
use output::Text;
use table::Refusal;

// A longer trace is not listed.
pub const MOST_TRACE: usize = 65536;

// The longest line: eleven numbers, each with the byte after it.
const MOST_LINE: usize = 231;

// The line of an event has no more numbers behind its place.
const MOST_COLUMNS: usize = 10;

// What the next line is of: the header, what stands at a place of the trace, a trace that is too long,
// or nothing more, the trace having been listed to its end or not.
#[derive(Clone, Copy, Debug, PartialEq, Eq)]
pub enum Progress {
    Header,
    Events { place: usize, count: u64 },
    TooLong,
    Done { whole: bool },
}

// What asking for a line did: the progress after the line and how many bytes it has, or that no line is left.
#[derive(Clone, Copy, Debug, PartialEq, Eq)]
pub enum Written {
    Line { next: Progress, length: usize },
    Done { whole: bool },
}

// The progress before the first line of a trace of a length.
pub fn start(length: usize) -> Progress
    ensures { StartsListing length result }
{
    if length <= MOST_TRACE {
        Progress::Header
    } else {
        Progress::TooLong
    }
}

// A further line of a text, if all of it fits.
pub fn put_line(line: &[u8], next: Progress, text: &mut Text) -> Result<Written, Refusal>
    ensures { Goes (PutsLine line.now next) text.old text.new result }
{
    let length = line.len();
    let room = text.out.len().checked_sub(text.n).ok_or(Refusal::NoRoom)?;
    if room < length {
        return Err(Refusal::NoRoom);
    }
    text.put_all(line);
    Ok(Written::Line { next, length })
}

// The line of an event: its place, and the numbers behind it. It is made in an array of its own, so that its
// length is known before a byte of the caller's buffer changes.
pub fn put_columns(
    place: usize,
    columns: &[u64],
    next: Progress,
    text: &mut Text,
) -> Result<Written, Refusal>
    ensures { Goes (PutsColumns place columns.now next) text.old text.new result }
{
    if MOST_COLUMNS < columns.len() {
        return Err(Refusal::NoRoom);
    }
    let mut line = [0u8; MOST_LINE];
    let mut made = Text::new(&mut line);
    made.put_numbers(place as u64, columns);
    made.put_all(b"\n");
    put_line(made.bytes(), next, text)
}

// The last line: a place and a number, each behind its word. Both numbers and the newline take 43 bytes
// at most.
fn put_last(
    word: &[u8],
    place: usize,
    other: &[u8],
    value: u64,
    whole: bool,
    text: &mut Text,
) -> Result<Written, Refusal>
    requires { length word.now + length other.now + 43 ≤ most_line }
    ensures { Goes (PutsLast (last_line word.now place other.now value) whole) text.old text.new result }
{
    let mut line = [0u8; MOST_LINE];
    let mut made = Text::new(&mut line);
    made.put_all(word);
    made.put_more(&[place as u64]);
    made.put_all(other);
    made.put_more(&[value]);
    made.put_all(b"\n");
    put_line(made.bytes(), Progress::Done { whole }, text)
}

// The trace's end, and the number of its events.
pub fn put_end(place: usize, count: u64, text: &mut Text) -> Result<Written, Refusal>
    ensures { Goes (PutsEnd place count) text.old text.new result }
{
    put_last(b"end", place, b" events", count, true, text)
}

// A fault of the trace. `PutsStop` takes any number of a refusal, also one that no `Refusal` has.
pub fn put_stop(place: usize, refusal: u64, text: &mut Text) -> Result<Written, Refusal>
    ensures { Goes (PutsStop place refusal) text.old text.new result }
{
    put_last(b"stop", place, b" refusal", refusal, false, text)
}

// A trace that is too long.
pub fn put_too_long(text: &mut Text) -> Result<Written, Refusal>
    ensures { Goes PutsTooLong text.old text.new result }
{
    put_line(b"too long\n", Progress::Done { whole: false }, text)
}
