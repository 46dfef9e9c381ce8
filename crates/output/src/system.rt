// What the programs ask of the system besides: input into a buffer, and a line on standard error.
ghost use Rattle.std.specs.Prelude.{length};
ghost use Rattle.output.specs.Promises.{Loses, ReadsInto};

use crate::LOST;
use std::io::{Error, Read, Write};

// An error's words are no longer than this.
const MOST_REASON: usize = 128;

// The words of an error's text, without the system's number behind them.
fn words_of(text: &[u8]) -> &str {
    let Ok(all) = std::str::from_utf8(text) else {
        return "";
    };
    match all.split_once(" (os error ") {
        Some((words, _)) => words,
        None => all,
    }
}

// Says on standard error what failed, and why; it gives the place after a write that failed.
pub fn fail(rt: &impl Eprint, what: &str, error: &Error) -> usize
    ensures { Loses result }
{
    let mut text = [0u8; MOST_REASON];
    let mut room = &mut text[..];
    let _ = write!(room, "{error}");
    let length = MOST_REASON.saturating_sub(room.len());
    let why = words_of(&text[..length]);
    let _ = eprintln!(rt; "{what}: {why}");
    LOST
}

// Reads until the buffer is full, the input ends or a read fails, and gives how many bytes it put at the
// buffer's start. Each read says how far it came, so no iterator has the places; `read_exact` tells no count.
pub fn read_full(input: &mut impl Read, buffer: &mut [u8]) -> usize
    ensures { ReadsInto (length buffer.new) result }
{
    let mut done = 0;
    while done < buffer.len() {
        match input.read(&mut buffer[done..]) {
            Ok(0) => return done,
            Ok(count) => done += count,
            Err(_) => return done,
        }
    }
    done
}
