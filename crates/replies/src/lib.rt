// Reading, writing and running with answers that are records of numbers alone, where those below answer by a
// `Result` or an enum: for C callers, and for programs that print them.
#![tactic(auto)]

ghost use Rattle.std.specs.Prelude.{◌≡◌};
ghost use Rattle.replies.specs.Replies.{no_number, no_event, at_no_fault};
ghost use Rattle.replies.specs.Promises.{ReadsNumber, WritesNumber, ReadsEvent, WritesEvent, Runs};
ghost use Rattle.replies.specs.Promises.{TellsWritten, TellsStop};

use bay::Bay;
use event::{Event, NO_EVENT};
use phy::Phy;
use run::Stop;
use table::Refusal;

// The number at a place, and the place after it.
#[repr(C)]
#[derive(Clone, Copy)]
pub struct NumberReply {
    pub value: u64,
    pub next: usize,
    pub refusal: u64,
}

// How many bytes were written, or why none.
#[repr(C)]
#[derive(Clone, Copy)]
pub struct WriteReply {
    pub length: usize,
    pub refusal: u64,
}

// What stands at a place of a trace, and the place reached.
#[repr(C)]
#[derive(Clone, Copy)]
pub struct EventReply {
    pub event: Event,
    pub next: usize,
    pub how: u64,
    pub refusal: u64,
}

// How a run stopped: at a fault with its number and place, or refused.
#[repr(C)]
#[derive(Clone, Copy)]
pub struct StopReply {
    pub how: u64,
    pub fault: u64,
    pub place: usize,
    pub refusal: u64,
}

// What a run gives: the phy with its recorder's clock.
#[repr(C)]
#[derive(Clone, Copy)]
pub struct RunReply {
    pub next: Bay,
    pub count: usize,
    pub stop: StopReply,
}

// How reading an event ended; a number, as C callers read it, and so are all kinds and refusals here.
pub const FOUND_EVENT: u64 = 0;

const FOUND_END: u64 = 1;

const FOUND_FAULT: u64 = 2;

// How a run stopped.
const STOPPED_AT_END: u64 = 0;

const STOPPED_AT_BUDGET: u64 = 1;

const STOPPED_AT_FAULT: u64 = 2;

// No value, and the place does not move.
fn no_number(place: usize, refusal: u64) -> NumberReply
    ensures { result ≡ no_number place refusal }
{
    NumberReply {
        value: 0,
        next: place,
        refusal,
    }
}

pub fn read_number(bytes: &[u8], place: usize) -> NumberReply
    ensures { ReadsNumber bytes.now place result }
{
    match number::read_number(bytes, place) {
        Ok(found) => NumberReply {
            value: found.value,
            next: found.next,
            refusal: 0,
        },
        Err(refusal) => no_number(place, u64::from(refusal)),
    }
}

// What was written, of a number or of an event.
impl From<Result<usize, Refusal>> for WriteReply {
    ghost from_gives = { TellsWritten };

    fn from(written: Result<usize, Refusal>) -> WriteReply {
        match written {
            Ok(length) => WriteReply { length, refusal: 0 },
            Err(refusal) => WriteReply {
                length: 0,
                refusal: u64::from(refusal),
            },
        }
    }
}

pub fn write_number(value: u64, buffer: &mut [u8], place: usize) -> WriteReply
    ensures { WritesNumber value buffer.old place result buffer.new }
{
    WriteReply::from(number::write_number(value, buffer, place))
}

// The end or a fault: no event, and the place does not move.
fn no_event(place: usize, how: u64, refusal: u64) -> EventReply
    ensures { result ≡ no_event place how refusal }
{
    EventReply {
        event: NO_EVENT,
        next: place,
        how,
        refusal,
    }
}

pub fn read_event(trace: &[u8], place: usize) -> EventReply
    ensures { ReadsEvent trace.now place result }
{
    match trace::event_at(trace, place) {
        Ok(Some(found)) => EventReply {
            event: found.value,
            next: found.next,
            how: FOUND_EVENT,
            refusal: 0,
        },
        Ok(None) => no_event(place, FOUND_END, 0),
        Err(fault) => no_event(place, FOUND_FAULT, u64::from(fault.refusal)),
    }
}

pub fn write_event(event: Event, buffer: &mut [u8], place: usize) -> WriteReply
    ensures { WritesEvent event buffer.old place result buffer.new }
{
    WriteReply::from(trace::write_event(event, buffer, place))
}

// At the end or the budget, or refused.
fn at_no_fault(how: u64, refusal: u64) -> StopReply
    ensures { result ≡ at_no_fault how refusal }
{
    StopReply {
        how,
        fault: 0,
        place: 0,
        refusal,
    }
}

// How a run stopped, in numbers.
impl From<Stop> for StopReply {
    ghost from_gives = { TellsStop };

    fn from(stop: Stop) -> StopReply {
        match stop {
            Stop::End => at_no_fault(STOPPED_AT_END, 0),
            Stop::Budget => at_no_fault(STOPPED_AT_BUDGET, 0),
            Stop::Fault(fault) => StopReply {
                how: STOPPED_AT_FAULT,
                fault: u64::from(fault.refusal),
                place: fault.place,
                refusal: 0,
            },
            Stop::Refused(refusal) => at_no_fault(0, u64::from(refusal)),
        }
    }
}

pub fn run(phy: Phy, trace: &[u8], budget: usize, buffer: &mut [u8]) -> RunReply
    ensures { Runs phy trace.now budget buffer.old result buffer.new }
{
    let ran = run::run(phy, trace, budget, buffer);
    RunReply {
        next: ran.next,
        count: ran.count,
        stop: StopReply::from(ran.stop),
    }
}
