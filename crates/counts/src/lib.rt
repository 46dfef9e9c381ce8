// How often each bay gave each answer: a row of sixteen counters for each bay, of 32 bits each. They are held as
// an array of arrays, or lent as one slice of numbers, row after row.
#![tactic(auto)]

mod lent;
mod place;
mod rows;

ghost use Rattle.std.specs.Prelude.{◌≡◌};
ghost use Rattle.counts.specs.Counters.{one_higher};
ghost use Rattle.counts.specs.Promises.{Refuses};

pub use lent::{ask, clear, raise};
use phy::{
    ANSWER_BAD_DESTINATION, ANSWER_BREAK_RECEIVED, ANSWER_COLLIDED, ANSWER_NO_DESTINATION,
    ANSWER_OPEN_TIMEOUT, ANSWER_OPENED, ANSWER_OPENED_BY_DESTINATION, ANSWER_OPENED_BY_OTHER,
    ANSWER_PATHWAY_BLOCKED, ANSWER_PORT_LAYER_REQUEST, ANSWER_PROTOCOL, ANSWER_RATE, ANSWER_RETRY,
    ANSWER_STP_BUSY, ANSWER_TERMINATED, ANSWER_WRONG_DESTINATION,
};
use place::Place;
pub use rows::{asked, cleared, raised};
use table::Refusal;

// A row for each bay that a port may have.
pub const ROWS: usize = port::MOST_PHYS;

// A counter for each answer.
pub const COLUMNS: usize = 16;

// So many numbers are lent.
pub const LENGTH: usize = ROWS * COLUMNS;

// A counter stops here.
const CEILING: u32 = 4294967295;

// The answers, one for each column.
pub const ANSWERS: [u64; COLUMNS] = [
    ANSWER_OPENED,
    ANSWER_RETRY,
    ANSWER_NO_DESTINATION,
    ANSWER_PATHWAY_BLOCKED,
    ANSWER_COLLIDED,
    ANSWER_OPENED_BY_DESTINATION,
    ANSWER_OPENED_BY_OTHER,
    ANSWER_BAD_DESTINATION,
    ANSWER_RATE,
    ANSWER_PROTOCOL,
    ANSWER_STP_BUSY,
    ANSWER_WRONG_DESTINATION,
    ANSWER_OPEN_TIMEOUT,
    ANSWER_BREAK_RECEIVED,
    ANSWER_PORT_LAYER_REQUEST,
    ANSWER_TERMINATED,
];

// A counter one higher, up to its ceiling.
fn one_higher(counter: u32) -> u32
    ensures { result ≡ one_higher counter }
{
    counter.checked_add(1).unwrap_or(CEILING)
}

// What raising and asking are refused with: the bay is looked at first, then the answer. Both are any numbers:
// `BadAnswerExactly` speaks of codes that are no answer.
pub fn refusal(bay: u64, answer: u64) -> Result<(), Refusal>
    ensures { Refuses bay answer result }
{
    let _ = Place::new(bay, answer)?;
    Ok(())
}
