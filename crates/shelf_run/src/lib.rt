// A run over a shelf trace: a lent row, a queue, a budget of events, and a lent buffer that gets one byte for
// each event taken. The port is judged once; where it stands is carried along.
#![tactic(auto)]

mod events;
mod row;

use bay::Bay;
use port::MOST_PHYS;
use replies::StopReply;
pub use row::run;

// What a run tells: the number of events taken, and how it stopped.
#[repr(C)]
#[derive(Clone, Copy)]
pub struct Ran {
    pub count: usize,
    pub stop: StopReply,
}

// The records of a row by value, so that the loop over the events is plain code.
#[derive(Clone, Copy)]
pub(crate) struct Table {
    pub(crate) bays: [Bay; MOST_PHYS],
}

// A table after a run, and what the run tells.
#[derive(Clone, Copy)]
pub(crate) struct Gone {
    pub(crate) table: Table,
    pub(crate) ran: Ran,
}
