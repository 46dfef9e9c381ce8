// Identification: a phy waits for the other side's identify frame and sends its own. The receiver
// takes the frame apart, a timer runs from our own frame on, and there is one outcome.
#![tactic(auto)]

ghost use Rattle.std.specs.Prelude.{◌≡◌};
ghost use Rattle.table.specs.Flags.{flag_of};
ghost use Rattle.table.specs.Refusals.{number_of};
ghost use Rattle.identify.specs.State.{is_in, ended_by};
ghost use Rattle.identify.specs.Names.{number_of_receiver, number_of_report};
ghost use Rattle.identify.specs.Promises.{StartsFresh, TellsValid, Steps};
ghost use Rattle.identify.specs.Step.{goes, reports, quiet, ends, exchanged, refused, on_soaf, type_after, counted};
ghost use Rattle.identify.specs.Step.{on_data_dword, frame_ends, on_eoaf, on_hard_reset, on_own_frame_sent, on_tick};
ghost use Rattle.identify.specs.Step.{code_of, argument_of, ReadsEvent, move_of};

use table::Refusal;

// The receiver's states; a record holds the number, as C hands it in.
#[derive(Clone, Copy, Debug, PartialEq, Eq)]
pub enum Receiver {
    Idle = 0,
    Receiving = 1,
    Spoiled = 2,
    Completed = 3,
}

// The events' codes, as C hands them in: no discriminants of `Event`, since two of the events carry an argument.
pub const SOAF: u64 = 0;

pub const DATA_DWORD: u64 = 1;

pub const EOAF: u64 = 2;

pub const HARD_RESET: u64 = 3;

pub const OTHER_PRIMITIVE: u64 = 4;

pub const OWN_FRAME_SENT: u64 = 5;

pub const TICK: u64 = 6;

pub const ENABLE: u64 = 7;

// The reports; from Complete on they are outcomes too, and a record holds the number.
#[derive(Clone, Copy, Debug, PartialEq, Eq)]
pub enum Report {
    None = 0,
    Failed = 1,
    Complete = 2,
    TimeOut = 3,
    ResetReceived = 4,
}

// A whole identify frame has this many data dwords.
const FRAME_DWORDS: u64 = 8;

// The first dword's type: four bits from bit 24 on.
const TYPE_PLACE: u32 = 16777216;

const TYPE_VALUES: u32 = 16;

const IDENTIFY_TYPE: u32 = 0;

// An EOAF's argument where the CRC was good.
const CRC_GOOD: u64 = 1;

const MOST_DWORD: u64 = 4294967295;

// Ticks that the other side's frame is waited for.
const FULL_TIMER: u64 = 1000;

// An event with its argument.
#[derive(Clone, Copy)]
enum Event {
    Soaf,
    DataDword(u32),
    Eoaf { crc_good: bool },
    HardReset,
    OtherPrimitive,
    OwnFrameSent,
    Tick,
    Enable,
}

// A code and an argument; an event that has no argument comes with 0.
impl TryFrom<(u64, u64)> for Event {
    type Error = Refusal;

    ghost try_from_gives = { ReadsEvent };

    #[tactic(auto, unfolding(crate::specs::Step::most_of, crate::specs::Step::known_of))]
    fn try_from(numbers: (u64, u64)) -> Result<Event, Refusal> {
        match numbers {
            (SOAF, 0) => Ok(Event::Soaf),
            (DATA_DWORD, dword @ 0..=MOST_DWORD) => Ok(Event::DataDword(dword as u32)),
            (EOAF, 0) => Ok(Event::Eoaf { crc_good: false }),
            (EOAF, CRC_GOOD) => Ok(Event::Eoaf { crc_good: true }),
            (HARD_RESET, 0) => Ok(Event::HardReset),
            (OTHER_PRIMITIVE, 0) => Ok(Event::OtherPrimitive),
            (OWN_FRAME_SENT, 0) => Ok(Event::OwnFrameSent),
            (TICK, 0) => Ok(Event::Tick),
            (ENABLE, 0) => Ok(Event::Enable),
            _ => Err(Refusal::BadEvent),
        }
    }
}

// What has come so far: the receiver with the data dwords counted in a frame and whether its type is
// Identify, the identify frame got, our own frame sent, the timer and the outcome. Numbers alone, flags
// too, so that `valid` can judge whatever a C caller hands in.
#[repr(C)]
#[derive(Clone, Copy)]
pub struct Identification {
    pub receiver: u64,
    pub count: u64,
    pub timer: u64,
    pub outcome: u64,
    pub typed: u64,
    pub got: u64,
    pub sent: u64,
}

// What a step gives: the state, the report, and the number of a refusal or 0. Numbers, as C takes them.
#[repr(C)]
#[derive(Clone, Copy)]
pub struct Stepped {
    pub next: Identification,
    pub report: u64,
    pub refusal: u64,
}

// Idle, all else unset.
pub fn fresh() -> Identification
    ensures { StartsFresh result }
{
    Identification {
        receiver: Receiver::Idle as u64,
        count: 0,
        timer: 0,
        outcome: Report::None as u64,
        typed: table::OFF,
        got: table::OFF,
        sent: table::OFF,
    }
}

// One test for each rule; no branches, so that all are made at once.
#[tactic(auto, unfolding(crate::specs::State::valid_of))]
pub fn valid(i: Identification) -> bool
    ensures { TellsValid i result }
{
    let typed = i.typed == table::ON;
    let got = i.got == table::ON;
    let sent = i.sent == table::ON;
    let framed = i.is_in(Receiver::Receiving);
    let both = got & sent;
    let none = i.ended_by(Report::None);
    let complete = i.ended_by(Report::Complete);
    let timed_out = i.ended_by(Report::TimeOut);
    let reset = i.ended_by(Report::ResetReceived);
    let awaiting = sent & !got & none;
    let flags_right = (i.typed <= table::ON) & (i.got <= table::ON) & (i.sent <= table::ON);
    let receiver_right = i.receiver <= Receiver::Completed as u64;
    let count_right = (framed & (i.count <= FRAME_DWORDS)) | (!framed & (i.count == 0));
    let timer_right = (awaiting & ((1 <= i.timer) & (i.timer <= FULL_TIMER)))
        | (!awaiting & (i.timer == 0));
    let got_right = !got | i.is_in(Receiver::Completed);
    let typed_right = !typed | (framed & (1 <= i.count));
    let outcome_right = none | complete | timed_out | reset;
    let complete_right = (complete & both) | (!complete & !both);
    let timed_out_right = !timed_out | (sent & !got);
    let reset_right = !reset | (!got & (i.is_in(Receiver::Idle) | i.is_in(Receiver::Completed)));
    flags_right
        & receiver_right
        & count_right
        & timer_right
        & got_right
        & typed_right
        & outcome_right
        & complete_right
        & timed_out_right
        & reset_right
}

impl Identification {
    fn is_in(self, receiver: Receiver) -> bool
        ensures { result ≡ is_in self (number_of_receiver receiver) }
    {
        self.receiver == receiver as u64
    }

    fn ended_by(self, outcome: Report) -> bool
        ensures { result ≡ ended_by self (number_of_report outcome) }
    {
        self.outcome == outcome as u64
    }

    // The receiver goes to a state, with dwords counted and the type Identify or not.
    fn goes(self, receiver: Receiver, count: u64, typed: u64) -> Identification
        ensures { result ≡ goes self (number_of_receiver receiver) count typed }
    {
        Identification {
            receiver: receiver as u64,
            count,
            typed,
            ..self
        }
    }

    fn reports(self, report: Report) -> Stepped
        ensures { result ≡ reports self (number_of_report report) }
    {
        Stepped {
            next: self,
            report: report as u64,
            refusal: 0,
        }
    }

    fn quiet(self) -> Stepped
        ensures { result ≡ quiet self }
    {
        self.reports(Report::None)
    }

    // An outcome stops the timer.
    fn ends(self, outcome: Report) -> Stepped
        ensures { result ≡ ends self (number_of_report outcome) }
    {
        let next = Identification {
            timer: 0,
            outcome: outcome as u64,
            ..self
        };
        next.reports(outcome)
    }

    // Got and sent come in either order, so both ask here whether the other was first.
    #[tactic(auto, unfolding(crate::specs::Step::exchanged))]
    fn exchanged(self) -> Stepped
        ensures { result ≡ exchanged self }
    {
        let both = (self.got == table::ON) & (self.sent == table::ON);
        if both {
            return self.ends(Report::Complete);
        }
        self.quiet()
    }

    // A refused step changes nothing.
    fn refused(self, refusal: Refusal) -> Stepped
        ensures { result ≡ refused self (number_of refusal) }
    {
        Stepped {
            next: self,
            report: Report::None as u64,
            refusal: refusal as u64,
        }
    }

    // A frame that starts inside another makes that one fail, and the count starts anew.
    #[tactic(auto, unfolding(crate::specs::Step::on_soaf))]
    fn on_soaf(self) -> Stepped
        ensures { result ≡ on_soaf self }
    {
        let begun = self.goes(Receiver::Receiving, 0, table::OFF);
        if self.is_in(Receiver::Receiving) {
            return begun.reports(Report::Failed);
        }
        if self.is_in(Receiver::Idle) | self.is_in(Receiver::Spoiled) {
            return begun.quiet();
        }
        self.quiet()
    }

    // The first dword alone fixes the type.
    fn type_after(self, dword: u32) -> u64
        ensures { result ≡ type_after self dword }
    {
        if self.count == 0 {
            return u64::from(dword / TYPE_PLACE % TYPE_VALUES == IDENTIFY_TYPE);
        }
        self.typed
    }

    // A ninth dword is too many.
    #[tactic(auto, unfolding(crate::specs::Step::counted))]
    fn counted(self, dword: u32) -> Stepped
        ensures { result ≡ counted self dword }
    {
        if FRAME_DWORDS <= self.count {
            return self
                .goes(Receiver::Spoiled, 0, table::OFF)
                .reports(Report::Failed);
        }
        let typed = self.type_after(dword);
        self.goes(Receiver::Receiving, self.count + 1, typed)
            .quiet()
    }

    // Outside a frame a data dword is ignored.
    #[tactic(auto, unfolding(crate::specs::Step::on_data_dword))]
    fn on_data_dword(self, dword: u32) -> Stepped
        ensures { result ≡ on_data_dword self dword }
    {
        if self.is_in(Receiver::Receiving) {
            return self.counted(dword);
        }
        self.quiet()
    }

    // The identify is got where eight dwords of that type came with a good CRC.
    #[tactic(auto, unfolding(crate::specs::Step::frame_ends))]
    fn frame_ends(self, crc_good: bool) -> Stepped
        ensures { result ≡ frame_ends self (flag_of crc_good) }
    {
        let whole = (self.count == FRAME_DWORDS) & (self.typed == table::ON) & crc_good;
        let ended = self.goes(Receiver::Completed, 0, table::OFF);
        if whole {
            let got = Identification {
                got: table::ON,
                ..ended
            };
            return got.exchanged();
        }
        ended.reports(Report::Failed)
    }

    // A spoiled frame was reported when it was spoiled.
    #[tactic(auto, unfolding(crate::specs::Step::on_eoaf))]
    fn on_eoaf(self, crc_good: bool) -> Stepped
        ensures { result ≡ on_eoaf self (flag_of crc_good) }
    {
        if self.is_in(Receiver::Receiving) {
            return self.frame_ends(crc_good);
        }
        if self.is_in(Receiver::Spoiled) {
            return self.goes(Receiver::Completed, 0, table::OFF).quiet();
        }
        self.quiet()
    }

    // Inside a frame, and once the identify is got, a HARD_RESET is ignored.
    #[tactic(auto, unfolding(crate::specs::Step::on_hard_reset))]
    fn on_hard_reset(self) -> Stepped
        ensures { result ≡ on_hard_reset self }
    {
        let in_frame = self.is_in(Receiver::Receiving) | self.is_in(Receiver::Spoiled);
        if in_frame | (self.got == table::ON) {
            return self.quiet();
        }
        self.ends(Report::ResetReceived)
    }

    // Only our first frame counts; an identify got before needs no timer.
    #[tactic(auto, unfolding(crate::specs::Step::on_own_frame_sent))]
    fn on_own_frame_sent(self) -> Stepped
        ensures { result ≡ on_own_frame_sent self }
    {
        if self.sent == table::ON {
            return self.quiet();
        }
        let timer = if self.got == table::ON { 0 } else { FULL_TIMER };
        let next = Identification {
            timer,
            sent: table::ON,
            ..self
        };
        next.exchanged()
    }

    // A timer at 0 does not run, so it cannot run out again.
    #[tactic(auto, unfolding(crate::specs::Step::on_tick))]
    fn on_tick(self) -> Stepped
        ensures { result ≡ on_tick self }
    {
        match self.timer {
            0 => self.quiet(),
            1 => self.ends(Report::TimeOut),
            timer => {
                let next = Identification {
                    timer: timer - 1,
                    ..self
                };
                next.quiet()
            }
        }
    }

    // What an event does; total, so that it needs no valid state.
    #[tactic(auto, unfolding(crate::specs::Step::move_of))]
    fn moved(self, event: Event) -> Stepped
        ensures { result ≡ move_of self (code_of event) (argument_of event) }
    {
        match event {
            Event::Enable => fresh().quiet(),
            // After an outcome only Enable does anything.
            _ if !self.ended_by(Report::None) => self.quiet(),
            Event::Soaf => self.on_soaf(),
            Event::DataDword(dword) => self.on_data_dword(dword),
            Event::Eoaf { crc_good } => self.on_eoaf(crc_good),
            Event::HardReset => self.on_hard_reset(),
            Event::OtherPrimitive => self.quiet(),
            Event::OwnFrameSent => self.on_own_frame_sent(),
            Event::Tick => self.on_tick(),
        }
    }
}

// One event: the state is judged first, then the event.
#[tactic(auto, unfolding(crate::specs::Step::step_of))]
pub fn step(i: Identification, event: u64, argument: u64) -> Stepped
    ensures { Steps i event argument result }
{
    if !valid(i) {
        return i.refused(Refusal::BadState);
    }
    match Event::try_from((event, argument)) {
        Ok(event) => i.moved(event),
        Err(refusal) => i.refused(refusal),
    }
}
