// The columns of an event's line, and the line.
ghost use Rattle.std.specs.Prelude.{◌≡◌};
ghost use Rattle.held.specs.Rows.{front};
ghost use Rattle.lines.specs.Promises.{Goes, PutsShort};
ghost use Rattle.shelf_listing.specs.Lines.{states_at, columns_of, event_line};

use crate::{Columns, States};
use bay::last_notice;
use event::ShelfEvent;
use held::{MOST_HELD, Row};
use lines::{Progress, Written, put_columns};
use output::Text;
use port::Stepped;
use table::Refusal;

// What the line shows of no phy; an `Option` would be taken apart into this at once.
const NO_PHY: States = States { link: 0, port: 0 };

pub(crate) fn states_at(row: Row, phys: usize, number: u64) -> States
    ensures { result ≡ states_at (front phys row.bays) number }
{
    if (number < phys as u64) & (number < MOST_HELD as u64) {
        let bay = row.bays[number as usize];
        let phy = bay.phy;
        return States {
            link: phy.link,
            port: phy.port,
        };
    }
    NO_PHY
}

pub(crate) fn columns_of(
    event: ShelfEvent,
    stepped: Stepped,
    states: States,
    waiting: u64,
) -> Columns
    ensures { result ≡ columns_of event stepped states waiting }
{
    let reports = stepped.reports;
    let answer = reports.answer;
    let sent = reports.sent;
    let what = event.event;
    Columns {
        phy: event.number,
        event: what.code,
        refusal: reports.refusal,
        answer: answer.code,
        notice: last_notice(reports.notice, reports.secondNotice),
        sent: sent.code,
        link: states.link,
        port: states.port,
        handed: stepped.handed,
        waiting,
    }
}

// The line of an event at a place.
pub(crate) fn put_event(
    place: usize,
    columns: Columns,
    next: Progress,
    text: &mut Text,
) -> Result<Written, Refusal>
    ensures { Goes (PutsShort (event_line place columns) next) text.old text.new result }
{
    let others = [
        columns.phy,
        columns.event,
        columns.refusal,
        columns.answer,
        columns.notice,
        columns.sent,
        columns.link,
        columns.port,
        columns.handed,
        columns.waiting,
    ];
    put_columns(place, &others, next, text)
}
