// A port: bays, lent as one row of records, and a queue of Opens that wait for a free phy. A step takes any
// row, any queue, any number and any event, and ends.
#![tactic(auto)]

mod free;
mod row;
mod state;
mod taking;

use bay::{Bay, Report};
use event::Open;
pub use row::{step, survey};
pub use state::{begun, judge};
pub use taking::{concerned, take};

// The most phys of a port.
pub const MOST_PHYS: usize = 8;

// The number of the port itself; of hand-outs, that there was none. It is a number, since C callers give and get it.
pub const THE_PORT: u64 = 127;

// What an event reports: an answer with the arguments of its Open, at most two notices, a primitive sent,
// each with its tick, and the number of a refusal; each 0 where there is none. No Options: the record is the C
// interface's.
#[repr(C)]
#[derive(Clone, Copy, Debug, PartialEq, Eq)]
pub struct Reports {
    pub answered: Open,
    pub answer: Report,
    pub notice: Report,
    pub secondNotice: Report,
    pub sent: Report,
    pub refusal: u64,
}

// What a step gives: the event's own reports, the phy that then received an Open, 127 where none did, and
// what that phy sent. No Option: the record is the C interface's.
#[repr(C)]
#[derive(Clone, Copy, Debug, PartialEq, Eq)]
pub struct Stepped {
    pub reports: Reports,
    pub handed: u64,
    pub handedSent: u64,
}

// What a survey of the row gathers: how many records, which are free, and whether all are valid. No Option:
// `Surveys` settles how many and which by a row that is not valid too.
#[derive(Clone, Copy, Debug, PartialEq, Eq)]
pub struct Scan {
    pub count: u64,
    pub free: u64,
    pub valid: bool,
}

// Where a port stands between events: how many phys, which of them are free, how many Opens wait.
#[derive(Clone, Copy, Debug, PartialEq, Eq)]
pub struct Standing {
    pub count: u64,
    pub free: u64,
    pub waiting: u64,
}

// Whether a port is valid, and where it stands. No Option: `Judges` settles where a port stands that is not valid
// too, and what it refuses is reported with that.
#[derive(Clone, Copy, Debug, PartialEq, Eq)]
pub struct Judged {
    pub valid: bool,
    pub standing: Standing,
}

// What an event makes of the one record that it concerns, where the port then stands, and what is reported.
#[derive(Clone, Copy, Debug, PartialEq, Eq)]
pub struct Taken {
    pub bay: Bay,
    pub standing: Standing,
    pub stepped: Stepped,
}
