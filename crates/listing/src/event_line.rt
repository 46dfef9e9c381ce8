// The columns of an event's line, and the line.
ghost use Rattle.std.specs.Prelude.{◌≡◌};
ghost use Rattle.listing.specs.Lines.{columns_of, event_line};
ghost use Rattle.lines.specs.Promises.{Goes, PutsShort};

use crate::Columns;
use bay::{Stepped, last_notice};
use event::Event;
use lines::{Progress, Written, put_columns};
use output::Text;
use table::Refusal;

pub(crate) fn columns_of(event: Event, stepped: Stepped) -> Columns
    ensures { result ≡ columns_of event stepped }
{
    let answer = stepped.answer;
    let sent = stepped.sent;
    let bay = stepped.next;
    let phy = bay.phy;
    Columns {
        event: event.code,
        refusal: stepped.refusal,
        answer: answer.code,
        notice: last_notice(stepped.notice, stepped.secondNotice),
        sent: sent.code,
        link: phy.link,
        port: phy.port,
    }
}

// The line of an event at a place.
pub(crate) fn put_event(
    place: usize,
    columns: Columns,
    next: Progress,
    text: &mut Text,
) -> Result<Written, Refusal>
    ensures { Goes (PutsShort (event_line place columns) next) text.old text.new result }
{
    let others = [
        columns.event,
        columns.refusal,
        columns.answer,
        columns.notice,
        columns.sent,
        columns.link,
        columns.port,
    ];
    put_columns(place, &others, next, text)
}
