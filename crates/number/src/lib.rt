// Numbers of a trace: groups of seven bits, lowest first, the high bit set if another follows.
// Reading takes zero groups at the end too; writing gives the one shortest form.
#![tactic(auto)]

ghost use Rattle.number.specs.Promises.{ReadsNumber, CountsBytes, WritesNumber};

use table::Refusal;

// Each group counts 128 times the one before; in a byte this is the high bit, set where another follows.
const HIGH: u64 = 128;

// Between its first group and a tenth a number has at most this many.
const MOST_BETWEEN: usize = 8;

// What stands at a place, and the place after it.
#[derive(Clone, Copy, Debug, PartialEq, Eq)]
pub struct Found<T> {
    pub value: T,
    pub next: usize,
}

// The number at a place of a slice; any place is taken, and past the end a number is cut. Slice and place stay apart,
// here and in `trace` and `shelf`: C lends them so, and the contracts name both.
pub fn read_number(s: &[u8], place: usize) -> Result<Found<u64>, Refusal>
    ensures { ReadsNumber s.now place result }
{
    if s.len() <= place {
        return Err(Refusal::Cut);
    }
    let first = s[place] as u64;
    let next = place + 1;
    // Most numbers are one byte: it leaves before the loop is set up.
    if first < HIGH {
        return Ok(Found { value: first, next });
    }
    // How many bytes stand before a tenth, so that one test a byte is enough.
    let left = (s.len() - next).min(MOST_BETWEEN);
    let mut value = first - HIGH;
    let mut weight = HIGH;
    for i in 0..left {
        let b = s[next + i] as u64;
        if b < HIGH {
            return Ok(Found {
                value: b * weight + value,
                next: next + i + 1,
            });
        }
        value = (b - HIGH) * weight + value;
        weight = weight * HIGH;
    }
    let tenth = next + left;
    if s.len() <= tenth {
        return Err(Refusal::Cut);
    }
    let b = s[tenth] as u64;
    if 1 < b {
        return Err(Refusal::TooLarge);
    }
    Ok(Found {
        value: b * weight + value,
        next: tenth + 1,
    })
}

// How many bytes a value takes. No index is counted: the loop ends with the value.
pub fn number_length(value: u64) -> usize
    ensures { CountsBytes value result }
{
    let mut rest = value;
    let mut length: usize = 1;
    while HIGH <= rest {
        rest = rest / HIGH;
        length += 1;
    }
    length
}

// A value's bytes at a place of a buffer, straight into it once their number is known to fit. The loop ends with
// the value too: by the length it is unrolled and dearer (docs/SPEED.md).
pub fn write_number(value: u64, buffer: &mut [u8], place: usize) -> Result<usize, Refusal>
    ensures { WritesNumber value buffer.old place result buffer.new }
{
    let length = number_length(value);
    // Two tests: by `saturating_sub` it would take two instructions more.
    if buffer.len() < place || buffer.len() - place < length {
        return Err(Refusal::NoRoom);
    }
    let mut rest = value;
    let mut at = place;
    while HIGH <= rest {
        buffer[at] = (HIGH + rest % HIGH) as u8;
        rest = rest / HIGH;
        at += 1;
    }
    buffer[at] = rest as u8;
    Ok(length)
}
