// Dword synchronization: whether the stream of dwords from the far end is understood.
#![tactic(auto)]

ghost use Rattle.std.specs.Prelude.{◌≡◌};
ghost use Rattle.dws.specs.Names.{number_of_state, number_of_event, number_of_report};
ghost use Rattle.dws.specs.Step.{StateAt, EventAt, Taken};
ghost use Rattle.dws.specs.Step.{after_invalid, after_valid, after_primitive, next_state, report_of};
ghost use Rattle.dws.specs.Promises.{StartsFresh, Steps};

use table::Refusal;

// The states, as the standard names them; `as u64` gives the number.
#[derive(Clone, Copy)]
enum State {
    AcquireSync = 0,
    Valid1 = 1,
    Valid2 = 2,
    SyncAcquired = 3,
    Lost1 = 4,
    Lost1Recovered = 5,
    Lost2 = 6,
    Lost2Recovered = 7,
    Lost3 = 8,
    Lost3Recovered = 9,
}

#[derive(Clone, Copy)]
enum Event {
    InvalidDword = 0,
    DataDword = 1,
    Primitive = 2,
    Restart = 3,
}

#[derive(Clone, Copy)]
enum Report {
    NoReport = 0,
    Acquired = 1,
    Lost = 2,
}

impl TryFrom<u64> for State {
    type Error = Refusal;

    ghost try_from_gives = { StateAt };

    fn try_from(number: u64) -> Result<State, Refusal> {
        match number {
            0 => Ok(State::AcquireSync),
            1 => Ok(State::Valid1),
            2 => Ok(State::Valid2),
            3 => Ok(State::SyncAcquired),
            4 => Ok(State::Lost1),
            5 => Ok(State::Lost1Recovered),
            6 => Ok(State::Lost2),
            7 => Ok(State::Lost2Recovered),
            8 => Ok(State::Lost3),
            9 => Ok(State::Lost3Recovered),
            _ => Err(Refusal::BadState),
        }
    }
}

impl TryFrom<u64> for Event {
    type Error = Refusal;

    ghost try_from_gives = { EventAt };

    fn try_from(number: u64) -> Result<Event, Refusal> {
        match number {
            0 => Ok(Event::InvalidDword),
            1 => Ok(Event::DataDword),
            2 => Ok(Event::Primitive),
            3 => Ok(Event::Restart),
            _ => Err(Refusal::BadEvent),
        }
    }
}

impl State {
    #[tactic(auto, unfolding(crate::specs::Step::after_valid))]
    fn after_valid(self) -> State
        ensures { number_of_state result ≡ after_valid (number_of_state self) }
    {
        match self {
            State::AcquireSync | State::Valid1 | State::Valid2 => self,
            State::SyncAcquired => State::SyncAcquired,
            State::Lost1 => State::Lost1Recovered,
            State::Lost1Recovered => State::SyncAcquired,
            State::Lost2 => State::Lost2Recovered,
            State::Lost2Recovered => State::Lost1,
            State::Lost3 => State::Lost3Recovered,
            State::Lost3Recovered => State::Lost2,
        }
    }

    // Before synchronization primitives alone count.
    #[tactic(auto, unfolding(crate::specs::Step::after_primitive))]
    fn after_primitive(self) -> State
        ensures { number_of_state result ≡ after_primitive (number_of_state self) }
    {
        match self {
            State::AcquireSync => State::Valid1,
            State::Valid1 => State::Valid2,
            State::Valid2 => State::SyncAcquired,
            _ => self.after_valid(),
        }
    }

    #[tactic(auto, unfolding(crate::specs::Step::after_invalid))]
    fn after_invalid(self) -> State
        ensures { number_of_state result ≡ after_invalid (number_of_state self) }
    {
        match self {
            State::AcquireSync | State::Valid1 | State::Valid2 => State::AcquireSync,
            State::SyncAcquired => State::Lost1,
            State::Lost1 | State::Lost1Recovered => State::Lost2,
            State::Lost2 | State::Lost2Recovered => State::Lost3,
            State::Lost3 | State::Lost3Recovered => State::AcquireSync,
        }
    }

    #[tactic(auto, unfolding(crate::specs::Step::next_state))]
    fn next(self, event: Event) -> State
        ensures { number_of_state result ≡ next_state (number_of_state self) (number_of_event event) }
    {
        match event {
            Event::InvalidDword => self.after_invalid(),
            Event::DataDword => self.after_valid(),
            Event::Primitive => self.after_primitive(),
            Event::Restart => State::AcquireSync,
        }
    }
}

// What a step gives: the state, the report, and the number of a refusal or 0. Numbers, as C takes them.
#[repr(C)]
#[derive(Clone, Copy)]
pub struct Stepped {
    pub state: u64,
    pub report: u64,
    pub refusal: u64,
}

pub fn fresh() -> u64
    ensures { StartsFresh result }
{
    State::AcquireSync as u64
}

// A restart enters the first state too, and reports nothing.
#[tactic(auto, unfolding(crate::specs::Step::report_of))]
fn report_of(from: State, event: Event, to: State) -> Report
    ensures { number_of_report result ≡ report_of (number_of_state from) (number_of_event event) (number_of_state to) }
{
    match (from, event, to) {
        (State::Valid2, _, State::SyncAcquired) => Report::Acquired,
        (State::Lost3 | State::Lost3Recovered, Event::InvalidDword, State::AcquireSync) =>
            Report::Lost,
        _ => Report::NoReport,
    }
}

// A state above 9 is refused, then an event above 3.
#[tactic(auto, unfolding(crate::specs::Step::step_of))]
fn taken(state: u64, event: u64) -> Result<(State, Report), Refusal>
    ensures { Taken state event result }
{
    let from = State::try_from(state)?;
    let event = Event::try_from(event)?;
    let to = from.next(event);
    Ok((to, report_of(from, event, to)))
}

// Any state and any event: a C caller hands in any numbers.
pub fn step(state: u64, event: u64) -> Stepped
    ensures { Steps state event result }
{
    match taken(state, event) {
        Ok((next, report)) => Stepped {
            state: next as u64,
            report: report as u64,
            refusal: 0,
        },
        Err(refusal) => Stepped {
            state,
            report: Report::NoReport as u64,
            refusal: refusal as u64,
        },
    }
}
