// A listing, line by line, of whatever is listed: the header, a line for each event, and the line that ends it.
ghost use Rattle.std.specs.Prelude.{◌≡◌};
ghost use Rattle.lines.specs.Listing.{Listable, after_reading};
ghost use Rattle.lines.specs.Promises.{GivesHeader, ReadsAt, PutsEvent, GoesWith, WritesNext, WritesLine, moved_on};
ghost use Rattle.lines.specs.Laws.{ReadsOn};

use crate::{Progress, Written, put_end, put_line, put_stop, put_too_long};
use number::Found;
use output::Text;
use table::Refusal;
use trace::Fault;

// What asking for a line did, and the state after it.
#[derive(Clone, Copy)]
pub struct Listed<S> {
    pub state: S,
    pub written: Result<Written, Refusal>,
}

// What is listed: a state that events move, each event with a line of its own.
pub trait Listing {
    type State: Copy;

    type Event: Copy;

    ghost listable: { Listable Self.State Self.Event };

    // The line of the columns' names.
    fn header() -> &'static [u8]
        ensures { GivesHeader listable result.now };

    // What stands at a place of a trace.
    fn read(trace: &[u8], place: usize) -> Result<Option<Found<Self::Event>>, Fault>
        ensures { ReadsAt listable trace.now place result };

    // The line of an event at a place, and the state after it, whether the line has room or not.
    fn put_event(
        state: Self::State,
        place: usize,
        event: Self::Event,
        next: Progress,
        text: &mut Text,
    ) -> Listed<Self::State>
        ensures { GoesWith (PutsEvent listable state place event next) text.old text.new result };

    ghost reads_on: { ReadsOn listable };

    // The line of what stands at a place: an event, the trace's end or a fault.
    final fn next_event(
        trace: &[u8],
        place: usize,
        count: u64,
        state: Self::State,
        text: &mut Text,
    ) -> Listed<Self::State>
        ensures { GoesWith (WritesNext (after_reading listable place count state (listable.reads trace.now place)) state) text.old text.new result }
    {
        match Self::read(trace, place) {
            Ok(Some(found)) => {
                let onward = Progress::Events {
                    place: found.next,
                    count: std::num::wrapping_add_u64(count, 1),
                };
                moved_on(
                    state,
                    Self::put_event(state, place, found.value, onward, text),
                )
            }
            Ok(None) => still(state, put_end(place, count, text)),
            Err(fault) => still(state, put_stop(fault.place, u64::from(fault.refusal), text)),
        }
    }

    // The next line of a trace's listing, behind a text; any progress is taken, and any state.
    final fn next_line(
        trace: &[u8],
        progress: Progress,
        state: Self::State,
        text: &mut Text,
    ) -> Listed<Self::State>
        ensures { GoesWith (WritesLine listable trace.now progress state) text.old text.new result }
    {
        match progress {
            Progress::Header => {
                let first = Progress::Events { place: 0, count: 0 };
                still(state, put_line(Self::header(), first, text))
            }
            Progress::Events { place, count } => {
                Self::next_event(trace, place, count, state, text)
            }
            Progress::TooLong => still(state, put_too_long(text)),
            Progress::Done { whole } => still(state, Ok(Written::Done { whole })),
        }
    }
}

// Where the line of an event has no room the event is still to come.
fn moved_on<S: Copy>(before: S, listed: Listed<S>) -> Listed<S>
    ensures { result ≡ record { state = moved_on listed.written before listed.state; written = listed.written } }
{
    match listed.written {
        Ok(Written::Line { .. }) => listed,
        _ => still(before, listed.written),
    }
}

// A line that moves no state.
fn still<S: Copy>(state: S, written: Result<Written, Refusal>) -> Listed<S>
    ensures { result ≡ record { state = state; written = written } }
{
    Listed { state, written }
}
