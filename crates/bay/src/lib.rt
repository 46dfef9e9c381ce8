// A bay: a phy with its recorder's clock. A step takes any record and any event, and ends; a time stamp
// costs the same however many ticks it stands for, but for two moves of the link at most.
#![tactic(auto)]

mod gap;
mod reports;
mod state;
mod wait;

ghost use Rattle.bay.specs.Promises.{TakesStamp, Moves, Steps};

use event::{Event, MOST_COUNTER, Open, TIME_STAMP};
use phy::Phy;
pub use reports::{NO_REPORT, last_notice};
pub use state::{fresh, valid};
use table::Refusal;

// The base is the counter of the last stamp; `baseSet` is a flag, that one has come. They are numbers and no Option,
// since the record is the C interface's.
#[repr(C)]
#[derive(Clone, Copy, Debug, PartialEq, Eq)]
pub struct Bay {
    pub phy: Phy,
    pub base: u64,
    pub baseSet: u64,
}

// A code, and the tick of its gap at which it came, counted from 1; 0 where no gap has passed.
#[repr(C)]
#[derive(Clone, Copy, Debug, PartialEq, Eq)]
pub struct Report {
    pub code: u64,
    pub tick: u64,
}

// What a step gives: the bay, an answer with the arguments of its Open, at most two notices, a primitive
// sent, each with its tick, and the number of a refusal; each 0 where there is
// none: numbers and no Option, since the record is the C interface's.
#[repr(C)]
#[derive(Clone, Copy, Debug, PartialEq, Eq)]
pub struct Stepped {
    pub next: Bay,
    pub answered: Open,
    pub answer: Report,
    pub notice: Report,
    pub secondNotice: Report,
    pub sent: Report,
    pub refusal: u64,
}

// A part of a gap: what its last tick gave, and how many ticks it has.
#[derive(Clone, Copy)]
pub(crate) struct Leg {
    pub(crate) stepped: phy::Stepped,
    pub(crate) ticks: u64,
}

// A time stamp of any counter, judged like any event.
pub fn stamped(bay: Bay, counter: u64) -> Stepped
    ensures { TakesStamp bay counter result }
{
    if valid(bay) {
        if counter <= MOST_COUNTER {
            return gap::on_stamp(bay, counter);
        }
        return bay.refused(Refusal::BadEvent);
    }
    bay.refused(Refusal::BadState)
}

// The move of an event, for whoever knows that the bay is valid and the event may stand in a trace.
#[tactic(auto, unfolding(crate::specs::Step::move_of))]
pub fn moved(bay: Bay, event: Event) -> Stepped
    ensures { Moves bay event result }
{
    if event.code == TIME_STAMP {
        return stamped(bay, event.first);
    }
    bay.at_once(phy::moved(bay.phy, event))
}

// Any bay and any event: what is no time stamp, or a wrong one, the phy judges.
pub fn step(bay: Bay, event: Event) -> Stepped
    ensures { Steps bay event result }
{
    if (event.code == TIME_STAMP) & event::known_in_trace(event) {
        return stamped(bay, event.first);
    }
    if state::valid_clock(bay) {
        return bay.at_once(phy::step(bay.phy, event));
    }
    bay.refused(Refusal::BadState)
}
