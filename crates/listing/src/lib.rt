// What the listing of a phy's trace shows: what a fresh bay does at each event.
#![tactic(auto)]

mod event_line;

ghost use Rattle.listing.specs.Listing.{of_phy};
ghost use Rattle.listing.specs.ReadsOn.{reads_on as phy_reads_on};

use bay::Bay;
use event::Event;
use event_line::{columns_of, put_event};
use lines::{Listed, Listing, Progress};
use number::Found;
use output::Text;
use trace::Fault;

// What the line of an event says behind its place: the event's code, what the step reported, of two
// notices the last, and the phy after it. A shelf's record of columns is another one: it has other columns.
#[derive(Clone, Copy)]
pub(crate) struct Columns {
    pub(crate) event: u64,
    pub(crate) refusal: u64,
    pub(crate) answer: u64,
    pub(crate) notice: u64,
    pub(crate) sent: u64,
    pub(crate) link: u64,
    pub(crate) port: u64,
}

// A phy's trace, listed.
#[derive(Clone, Copy)]
pub struct OfPhy;

impl Listing for OfPhy {
    type State = Bay;

    type Event = Event;

    ghost listable = { of_phy };

    ghost reads_on = { phy_reads_on };

    fn header() -> &'static [u8] {
        b"place event refusal answer notice sent link port\n"
    }

    fn read(trace: &[u8], place: usize) -> Result<Option<Found<Event>>, Fault> {
        trace::event_at(trace, place)
    }

    fn put_event(
        bay: Bay,
        place: usize,
        event: Event,
        next: Progress,
        text: &mut Text,
    ) -> Listed<Bay> {
        let stepped = bay::step(bay, event);
        Listed {
            state: stepped.next,
            written: put_event(place, columns_of(event, stepped), next, text),
        }
    }
}
