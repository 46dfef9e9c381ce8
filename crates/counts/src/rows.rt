// Counters held as an array of arrays. What is refused changes nothing; `refusal` says why.
ghost use Rattle.std.specs.Prelude.{◌≡◌};
ghost use Rattle.counts.specs.Promises.{Clears, Raises, Asks};

use crate::place::Place;
use crate::{COLUMNS, ROWS, one_higher};
use table::Refusal;

// Every counter is 0.
pub fn cleared() -> [[u32; COLUMNS]; ROWS]
    ensures { Clears result }
{
    [[0u32; COLUMNS]; ROWS]
}

// The counter of a bay and an answer, one higher.
#[tactic(auto, unfolding(crate::specs::Counters::raised_of))]
pub fn raised(counts: [[u32; COLUMNS]; ROWS], bay: u64, answer: u64) -> [[u32; COLUMNS]; ROWS]
    ensures { Raises counts bay answer result }
{
    let mut next = counts;
    if let Ok(at) = Place::new(bay, answer) {
        next[at.row][at.column] = one_higher(next[at.row][at.column]);
    }
    next
}

// The counter of a bay and an answer.
#[tactic(auto, unfolding(crate::specs::Counters::asked_of))]
pub fn asked(counts: [[u32; COLUMNS]; ROWS], bay: u64, answer: u64) -> Result<u64, Refusal>
    ensures { Asks counts bay answer result }
{
    let at = Place::new(bay, answer)?;
    Ok(u64::from(counts[at.row][at.column]))
}
