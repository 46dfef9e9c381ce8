// Counters lent as one slice, sixteen numbers a row. Another length is a bad state.
ghost use Rattle.std.specs.Prelude.{◌≡◌};
ghost use Rattle.counts.specs.Lent.{FindsLent, Measures};
ghost use Rattle.counts.specs.Promises.{ClearsLent, RaisesLent, AsksLent};

use crate::place::Place;
use crate::{LENGTH, one_higher};
use table::Refusal;

// The length of what is lent is looked at before all else.
fn judged(length: usize) -> Result<(), Refusal>
    ensures { Measures length result }
{
    if length == LENGTH {
        return Ok(());
    }
    Err(Refusal::BadState)
}

// Where the counter of a bay and an answer is in a slice of so many numbers.
fn place(length: usize, bay: u64, answer: u64) -> Result<usize, Refusal>
    ensures { FindsLent length bay answer result }
{
    judged(length)?;
    Ok(Place::new(bay, answer)?.lent())
}

// Every counter is 0.
pub fn clear(counts: &mut [u32]) -> Result<(), Refusal>
    ensures { ClearsLent counts.old result counts.new }
{
    judged(counts.len())?;
    counts.fill(0);
    Ok(())
}

// The counter of a bay and an answer, one higher.
#[tactic(auto, unfolding(crate::specs::Lent::lent_raised))]
pub fn raise(counts: &mut [u32], bay: u64, answer: u64) -> Result<(), Refusal>
    ensures { RaisesLent counts.old bay answer result counts.new }
{
    let at = place(counts.len(), bay, answer)?;
    counts[at] = one_higher(counts[at]);
    Ok(())
}

// The counter of a bay and an answer.
#[tactic(auto, unfolding(crate::specs::Lent::lent_asked))]
pub fn ask(counts: &[u32], bay: u64, answer: u64) -> Result<u64, Refusal>
    ensures { AsksLent counts.now bay answer result }
{
    let at = place(counts.len(), bay, answer)?;
    Ok(u64::from(counts[at]))
}
