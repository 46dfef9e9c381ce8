// Events of the phy and the time stamp that stands among them in a trace: their codes, and the one table
// of arguments, how many each event has and each one's range.
#![tactic(auto)]

ghost use Rattle.std.specs.Prelude.{◌≡◌, ◌&&◌, eqb, leb, [], ◌∷◌};
ghost use Rattle.table.specs.Choice.{pick};
ghost use Rattle.event.specs.Names.{time_stamp, most_counter};
ghost use Rattle.event.specs.Table.{◌to◌, tx_open_arguments, open_arguments, range_at, arguments_known};
ghost use Rattle.event.specs.Promises.{CountsArguments, GivesRange, TellsCodeInTrace, TellsKnown, TellsKnownInTrace, TellsOpenKnown, MakesOpen, MakesTxOpen, ListsOpen};

// Protocols: numbers, as the records of the C interface have them.
pub const SMP: u64 = 0;

pub const STP: u64 = 2;

// Events: numbers, as the C interface and the traces have them.
pub const TX_OPEN: u64 = 1;

pub const CANCEL_OPEN: u64 = 2;

pub const CLOSE_CONNECTION: u64 = 3;

pub const SMP_TRANSMIT_BREAK: u64 = 4;

pub const ACCEPT_OPENS: u64 = 5;

pub const REJECT_OPENS: u64 = 6;

pub const OPEN_RECEIVED: u64 = 7;

pub const OPEN_ACCEPT_RECEIVED: u64 = 8;

pub const OPEN_REJECT_RECEIVED: u64 = 9;

pub const AIP_RECEIVED: u64 = 10;

pub const BREAK_RECEIVED: u64 = 11;

pub const CLOSE_RECEIVED: u64 = 12;

pub const TICK: u64 = 13;

pub const HARD_RESET: u64 = 14;

pub const PHY_DISABLED: u64 = 15;

pub const TIME_STAMP: u64 = 16;

// Limits of the arguments.
pub const MOST_WAIT: u64 = 65535;

pub const MOST_TAG: u64 = 65535;

pub const MOST_BLOCKED_COUNT: u64 = 255;

pub const SLOW_RATE: u64 = 8;

pub const FAST_RATE: u64 = 9;

pub const MOST_REJECT: u64 = 7;

pub const MOST_COUNTER: u64 = 4294967295;

pub const MOST_ADDRESS: u64 = 18446744073709551615;

// The six arguments of a Tx Open: a request while it waits, and what its answer carries.
#[repr(C)]
#[derive(Clone, Copy, Debug, PartialEq, Eq)]
pub struct Open {
    pub destination: u64,
    pub protocol: u64,
    pub rate: u64,
    pub tag: u64,
    pub blockedCount: u64,
    pub wait: u64,
}

// A code and six arguments in the paper's order; those that an event lacks are zero. The code is a number, since
// the record is the C interface's: a caller hands in any.
#[repr(C)]
#[derive(Clone, Copy, Debug, PartialEq, Eq)]
pub struct Event {
    pub code: u64,
    pub first: u64,
    pub second: u64,
    pub third: u64,
    pub fourth: u64,
    pub fifth: u64,
    pub sixth: u64,
}

// An event on a shelf: the number of the phy that it is for, and the event.
#[repr(C)]
#[derive(Clone, Copy, Debug, PartialEq, Eq)]
pub struct ShelfEvent {
    pub number: u64,
    pub event: Event,
}

// No Open: every argument is zero.
pub const NO_OPEN: Open = Open {
    destination: 0,
    protocol: 0,
    rate: 0,
    tag: 0,
    blockedCount: 0,
    wait: 0,
};

// No event: no event has the code 0.
pub const NO_EVENT: Event = Event {
    code: 0,
    first: 0,
    second: 0,
    third: 0,
    fourth: 0,
    fifth: 0,
    sixth: 0,
};

// The Open that the arguments of a Tx Open make.
impl From<Event> for Open {
    ghost from_gives = { MakesOpen };

    fn from(e: Event) -> Open {
        Open {
            destination: e.first,
            protocol: e.second,
            rate: e.third,
            tag: e.fourth,
            blockedCount: e.fifth,
            wait: e.sixth,
        }
    }
}

// The Tx Open of an Open.
impl From<Open> for Event {
    ghost from_gives = { MakesTxOpen };

    fn from(o: Open) -> Event {
        Event {
            code: TX_OPEN,
            first: o.destination,
            second: o.protocol,
            third: o.rate,
            fourth: o.tag,
            fifth: o.blockedCount,
            sixth: o.wait,
        }
    }
}

// The arguments of an Open, in the order of its fields.
impl From<Open> for [u64; 6] {
    ghost from_gives = { ListsOpen };

    fn from(o: Open) -> [u64; 6] {
        [
            o.destination,
            o.protocol,
            o.rate,
            o.tag,
            o.blockedCount,
            o.wait,
        ]
    }
}

// An argument's range, both ends included.
#[derive(Clone, Copy, Debug, PartialEq, Eq)]
pub struct Range {
    pub least: u64,
    pub most: u64,
}

// The only value of an argument that the event lacks.
const NONE: u64 = 0;

// The time stamp, told by its range first. As an arm of its own it would make each choice by a code a jump
// by a table, for which mixed events would pay.
fn is_stamp(code: u64) -> bool
    ensures { result ≡ eqb code time_stamp }
{
    if PHY_DISABLED < code {
        return code == TIME_STAMP;
    }
    false
}

// The most of the first argument of an event that has no arm: of the time stamp its counter, else none.
fn other_most(code: u64) -> u64
    ensures { result ≡ pick (eqb code time_stamp) most_counter 0 }
{
    if is_stamp(code) {
        return MOST_COUNTER;
    }
    NONE
}

// How many arguments an event has: of those without an arm the time stamp alone has one.
#[tactic(auto, unfolding(crate::specs::Table::argument_count))]
pub fn argument_count(code: u64) -> u64
    ensures { CountsArguments code result }
{
    match code {
        TX_OPEN => 6,
        OPEN_RECEIVED => 2,
        OPEN_REJECT_RECEIVED => 1,
        _ => is_stamp(code) as u64,
    }
}

fn tx_open_range(i: u64) -> Range
    ensures { result ≡ range_at tx_open_arguments i }
{
    match i {
        0 => Range {
            least: 0,
            most: MOST_ADDRESS,
        },
        1 => Range {
            least: 0,
            most: STP,
        },
        2 => Range {
            least: SLOW_RATE,
            most: FAST_RATE,
        },
        3 => Range {
            least: 0,
            most: MOST_TAG,
        },
        4 => Range {
            least: 0,
            most: MOST_BLOCKED_COUNT,
        },
        5 => Range {
            least: 0,
            most: MOST_WAIT,
        },
        _ => Range {
            least: 0,
            most: NONE,
        },
    }
}

fn open_range(i: u64) -> Range
    ensures { result ≡ range_at open_arguments i }
{
    match i {
        0 => Range {
            least: 0,
            most: MOST_ADDRESS,
        },
        1 => Range {
            least: 0,
            most: STP,
        },
        _ => Range {
            least: 0,
            most: NONE,
        },
    }
}

// The range at a place of an event that has one argument at most.
fn only_range(most: u64, i: u64) -> Range
    ensures { result ≡ range_at ((0 to most) ∷ []) i }
{
    match i {
        0 => Range { least: 0, most },
        _ => Range {
            least: 0,
            most: NONE,
        },
    }
}

// The range of an event's argument, counted from 0.
#[tactic(auto, unfolding(crate::specs::Table::argument_range))]
pub fn argument_range(code: u64, i: u64) -> Range
    ensures { GivesRange code i result }
{
    match code {
        TX_OPEN => tx_open_range(i),
        OPEN_RECEIVED => open_range(i),
        OPEN_REJECT_RECEIVED => only_range(MOST_REJECT, i),
        _ => only_range(other_most(code), i),
    }
}

// Whether a code may stand in a trace.
pub fn code_in_trace(code: u64) -> bool
    ensures { TellsCodeInTrace code result }
{
    (TX_OPEN <= code) & (code <= TIME_STAMP)
}

// Whether the first argument is in its range, and the event has no other.
fn only_known(most: u64, e: Event) -> bool
    ensures { result ≡ (leb e.first most && leb e.second 0 && leb e.third 0
        && leb e.fourth 0 && leb e.fifth 0 && leb e.sixth 0) }
{
    (e.first <= most)
        & (e.second <= NONE)
        & (e.third <= NONE)
        & (e.fourth <= NONE)
        & (e.fifth <= NONE)
        & (e.sixth <= NONE)
}

// Whether an event's arguments are in the ranges of its code; any 64-bit number is an address, and is not tested.
#[tactic(auto, unfolding(crate::specs::Table::arguments_known, crate::specs::Table::argument_range))]
fn arguments_known(e: Event) -> bool
    ensures { result ≡ arguments_known e.code e.first e.second e.third e.fourth e.fifth e.sixth }
{
    match e.code {
        TX_OPEN => {
            (e.second <= STP)
                & ((SLOW_RATE <= e.third) & (e.third <= FAST_RATE))
                & (e.fourth <= MOST_TAG)
                & (e.fifth <= MOST_BLOCKED_COUNT)
                & (e.sixth <= MOST_WAIT)
        }
        OPEN_RECEIVED => {
            (e.second <= STP)
                & (e.third <= NONE)
                & (e.fourth <= NONE)
                & (e.fifth <= NONE)
                & (e.sixth <= NONE)
        }
        OPEN_REJECT_RECEIVED => only_known(MOST_REJECT, e),
        _ => only_known(other_most(e.code), e),
    }
}

// Whether a phy knows an event; a time stamp is none of its events.
#[tactic(auto, unfolding(crate::specs::Table::known_of))]
pub fn known(e: Event) -> bool
    ensures { TellsKnown e result }
{
    if PHY_DISABLED < e.code {
        return false;
    }
    (TX_OPEN <= e.code) & arguments_known(e)
}

// Whether an event may stand in a trace.
#[tactic(auto, unfolding(crate::specs::Table::known_in_trace))]
pub fn known_in_trace(e: Event) -> bool
    ensures { TellsKnownInTrace e result }
{
    code_in_trace(e.code) & arguments_known(e)
}

// An Open that is kept has its arguments in the ranges of a Tx Open.
#[tactic(auto, unfolding(crate::specs::Table::open_known))]
pub fn open_known(o: Open) -> bool
    ensures { TellsOpenKnown o result }
{
    arguments_known(Event::from(o))
}
