// A run over a trace: a phy, a budget of events and a lent buffer that gets one byte for each event
// taken. The recorder's clock starts with the run, and is given back with the phy.
#![tactic(auto)]

ghost use Rattle.std.specs.Prelude.{◌≡◌};
ghost use Rattle.run.specs.Running.{told, tells, tells_stop};
ghost use Rattle.run.specs.Promises.{GivesByte, Runs, Ready, TakesEvents};
ghost use Rattle.run.specs.Stages.{ReadyOn, GoesOn};

use bay::Bay;
use event::TIME_STAMP;
use number::Found;
use phy::Phy;
use table::Refusal;
use trace::Fault;

// How a run stopped: at the trace's end, at the budget, at a fault with the place of its event, or
// refused before the first event.
#[derive(Clone, Copy, Debug, PartialEq, Eq)]
pub enum Stop {
    End,
    Budget,
    Fault(Fault),
    Refused(Refusal),
}

// What a run gives back: the state, the number of events taken, and how it stopped.
#[derive(Clone, Copy)]
pub struct Ran {
    pub next: Bay,
    pub count: usize,
    pub stop: Stop,
}

// How far events that are no stamps went, and what comes behind them: a stamp's counter, or nothing more.
#[derive(Clone, Copy)]
pub(crate) struct Gone {
    pub(crate) phy: Phy,
    pub(crate) count: usize,
    pub(crate) behind: Result<Found<u64>, Stop>,
}

// The byte of an event taken: the refusal, or else the answer, or else 0. All of them are bytes.
pub fn byte_for(refusal: u64, answer: u64) -> u8
    ensures { GivesByte refusal answer result }
{
    let told = if refusal == 0 { answer } else { refusal };
    (told % 256) as u8
}

fn went(phy: Phy, count: usize, behind: Result<Found<u64>, Stop>) -> Gone
    ensures { result ≡ record { phy = phy; count = count; behind = behind } }
{
    Gone { phy, count, behind }
}

// The events of a trace from a place on, up to a stamp. The phy was judged valid and stays so, and an
// event read is known, so each event goes straight to its move. Stamps are left to the caller: a loop
// that has them too keeps more than it has registers for.
fn to_stamp(
    phy: Phy,
    trace: &[u8],
    place: usize,
    count: usize,
    budget: usize,
    buffer: &mut [u8],
) -> Gone
    requires { ReadyOn phy count budget buffer.old }
    ensures { GoesOn phy trace.now place count budget buffer.old result buffer.new }
{
    let mut state = phy;
    let mut at = place;
    for n in count..budget {
        match trace::event_at(trace, at) {
            Ok(Some(Found { value: event, next })) => {
                if event.code == TIME_STAMP {
                    let value = event.first;
                    return went(state, n, Ok(Found { value, next }));
                }
                let r = phy::moved(state, event);
                buffer[n] = byte_for(r.refusal, r.answer);
                state = r.next;
                at = next;
            }
            Ok(None) => return went(state, n, Err(Stop::End)),
            Err(fault) => return went(state, n, Err(Stop::Fault(fault))),
        }
    }
    // The end comes before the budget: a trace that ends with its last event taken has ended.
    if at < trace.len() {
        return went(state, budget, Err(Stop::Budget));
    }
    went(state, budget, Err(Stop::End))
}

fn stopped(next: Bay, count: usize, stop: Stop) -> Ran
    ensures { tells result ≡ told count next (tells_stop stop) }
{
    Ran { next, count, stop }
}

// The events of a trace under a budget that the buffer has room for: up to a stamp, the stamp, and so on.
fn take_events(bay: Bay, trace: &[u8], budget: usize, buffer: &mut [u8]) -> Ran
    requires { Ready bay budget buffer.old }
    ensures { TakesEvents bay trace.now budget buffer.old result buffer.new }
{
    let mut state = bay;
    let mut place = 0;
    let mut count = 0;
    loop {
        let gone = to_stamp(state.phy, trace, place, count, budget, buffer);
        state.phy = gone.phy;
        let stamp = match gone.behind {
            Ok(stamp) => stamp,
            Err(stop) => return stopped(state, gone.count, stop),
        };
        let r = bay::stamped(state, stamp.value);
        buffer[gone.count] = byte_for(r.refusal, r.answer.code);
        state = r.next;
        place = stamp.next;
        count = gone.count + 1;
    }
}

// A run of any phy over any trace; refused, it takes nothing. Trace, budget and buffer stay apart: C lends them so.
pub fn run(phy: Phy, trace: &[u8], budget: usize, buffer: &mut [u8]) -> Ran
    ensures { Runs phy trace.now budget buffer.old result buffer.new }
{
    let bay = Bay::from(phy);
    if phy::valid(phy) {
        if buffer.len() < budget {
            return stopped(bay, 0, Stop::Refused(Refusal::NoRoom));
        }
        return take_events(bay, trace, budget, buffer);
    }
    stopped(bay, 0, Stop::Refused(Refusal::BadState))
}
