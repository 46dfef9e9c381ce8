// Where the counter of a bay and an answer is.
ghost use Rattle.std.specs.Prelude.{◌≡◌, ◌==◌, ◌<◌, position};
ghost use Rattle.counts.specs.Names.{row_count, column_count, answers};

use crate::{ANSWERS, COLUMNS, ROWS};
use table::Refusal;

// The row of a bay, and the column of an answer.
#[derive(Clone, Copy)]
pub(crate) struct Place {
    pub(crate) row: usize,
    pub(crate) column: usize,
    pub ghost in_rows: { row < row_count },
    pub ghost in_columns: { column < column_count },
}

// The column of an answer; none of a code that is no answer.
fn column(answer: u64) -> Option<usize>
    ensures { result ≡ position (λ a. answer == a) answers }
{
    ANSWERS.iter().position(|a| answer == *a)
}

impl Place {
    ghost use Rattle.counts.specs.Lent.{lent_length, place_of};
    ghost use Rattle.counts.specs.Counters.{FindsPlace};

    pub(crate) fn new(bay: u64, answer: u64) -> Result<Place, Refusal>
        ensures { FindsPlace bay answer result }
    {
        if ROWS as u64 <= bay {
            return Err(Refusal::NoSuchPhy);
        }
        let Some(column) = column(answer) else {
            return Err(Refusal::BadEvent);
        };
        Ok(Place {
            row: bay as usize,
            column,
        })
    }

    // Where counters are lent as one slice.
    pub(crate) fn lent(self) -> usize
        ensures value { result ≡ place_of self.row self.column }
        ensures in_length { result < lent_length }
    {
        self.row * COLUMNS + self.column
    }
}
