// What the listing of a shelf trace shows: what a port of fresh phys does at each event.
#![tactic(auto)]

mod event_line;

ghost use Rattle.shelf_listing.specs.Held.{of_shelf};
ghost use Rattle.shelf_listing.specs.ReadsOn.{reads_on as shelf_reads_on};
ghost use Rattle.shelf_listing.specs.Promises.{Freshly, Turns};

use event::ShelfEvent;
use event_line::{columns_of, put_event, states_at};
use held::Row;
use lines::{Listed, Listing, Progress};
use number::Found;
use output::Text;
use trace::Fault;

// The bays of a port, of which the first `phys` count, and the Opens that wait. `phys` stands beside the row, since
// `StepsRow` of `held` speaks of every bay of it, and no heap is had.
#[derive(Clone, Copy)]
pub struct Shelf {
    pub row: Row,
    pub phys: usize,
    pub queue: [u64; queue::LENGTH],
}

// Link and port of a phy.
#[derive(Clone, Copy)]
pub(crate) struct States {
    pub(crate) link: u64,
    pub(crate) port: u64,
}

// What the line of an event says behind its place.
#[derive(Clone, Copy)]
pub(crate) struct Columns {
    pub(crate) phy: u64,
    pub(crate) event: u64,
    pub(crate) refusal: u64,
    pub(crate) answer: u64,
    pub(crate) notice: u64,
    pub(crate) sent: u64,
    pub(crate) link: u64,
    pub(crate) port: u64,
    pub(crate) handed: u64,
    pub(crate) waiting: u64,
}

// The shelf after an event, and the event's columns.
#[derive(Clone, Copy)]
struct Turn {
    shelf: Shelf,
    columns: Columns,
}

// A shelf of fresh bays; with no phy or too many of them every event is refused.
pub fn fresh(phys: usize) -> Shelf
    ensures { Freshly phys result }
{
    Shelf {
        row: Row::fresh(),
        phys,
        queue: [0; queue::LENGTH],
    }
}

fn turned(shelf: Shelf, event: ShelfEvent) -> Turn
    ensures { Turns shelf event result }
{
    let number = event.number;
    let phys = shelf.phys;
    let mut row = shelf.row;
    let mut queue = shelf.queue;
    let stepped = row.step(phys, &mut queue, number, event.event);
    let held = queue::judged(&queue);
    let states = states_at(row, phys, number);
    Turn {
        shelf: Shelf { row, phys, queue },
        columns: columns_of(event, stepped, states, held.waiting),
    }
}

// A shelf's trace, listed.
#[derive(Clone, Copy)]
pub struct OfShelf;

impl Listing for OfShelf {
    type State = Shelf;

    type Event = ShelfEvent;

    ghost listable = { of_shelf };

    ghost reads_on = { shelf_reads_on };

    fn header() -> &'static [u8] {
        b"place phy event refusal answer notice sent link port handed waiting\n"
    }

    fn read(trace: &[u8], place: usize) -> Result<Option<Found<ShelfEvent>>, Fault> {
        shelf::event_at(trace, place)
    }

    fn put_event(
        shelf: Shelf,
        place: usize,
        event: ShelfEvent,
        next: Progress,
        text: &mut Text,
    ) -> Listed<Shelf> {
        let turn = turned(shelf, event);
        Listed {
            state: turn.shelf,
            written: put_event(place, turn.columns, next, text),
        }
    }
}
