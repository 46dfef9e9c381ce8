// Cases of single shelf events: reading at a place of a byte string, writing into a buffer. Why they stand
// beside those of `trace_cases` is said in `numbers` of `cases`.
ghost use Rattle.casefile.specs.Promises.{EndsWithin};

use casefile::{Input, event_of};
use event::{NO_EVENT, ShelfEvent};
use output::Text;
use replies::WriteReply;

// The buffers of the cases are no longer than this.
const MOST_BUFFER: usize = 64;

// The numbers of a line that says what was read.
const READ_NUMBERS: usize = 11;

// How reading ended; a line has the number. `replies` has these numbers as constants: as an enum they
// would be cast into each of its records.
#[derive(Clone, Copy)]
enum How {
    Event = 0,
    End = 1,
    Fault = 2,
}

// What a line has where no event was read.
const NOTHING: ShelfEvent = ShelfEvent {
    number: 0,
    event: NO_EVENT,
};

// how, refusal, place reached, number, code, arguments
fn read_line(how: How, refusal: u64, place: usize, found: ShelfEvent) -> [u64; READ_NUMBERS] {
    let e = found.event;
    [
        how as u64,
        refusal,
        place as u64,
        found.number,
        e.code,
        e.first,
        e.second,
        e.third,
        e.fourth,
        e.fifth,
        e.sixth,
    ]
}

// place, bytes: what was read there; only an event moves the place
pub(crate) fn read_case(rt: &(impl Print + Eprint), kind: u64, input: &mut Input, text: &mut Text)
    ensures { EndsWithin input.old input.new }
{
    let place = input.take() as usize;
    let line = match shelf::event_at(input.take_bytes(), place) {
        Ok(Some(found)) => read_line(How::Event, 0, found.next, found.value),
        Ok(None) => read_line(How::End, 0, place, NOTHING),
        Err(fault) => read_line(How::Fault, u64::from(fault.refusal), place, NOTHING),
    };
    text.put_line(rt, kind, &line);
}

// number, event
pub(crate) fn take_event(input: &mut Input) -> ShelfEvent
    ensures { EndsWithin input.old input.new }
{
    let number = input.take();
    ShelfEvent {
        number,
        event: event_of(input.take_array()),
    }
}

// place, number, event, buffer before: refusal, length, buffer after
pub(crate) fn write_case(rt: &(impl Print + Eprint), kind: u64, input: &mut Input, text: &mut Text)
    ensures { EndsWithin input.old input.new }
{
    let place = input.take() as usize;
    let event = take_event(input);
    let before = input.take_bytes();
    let length = before.len().min(MOST_BUFFER);
    let mut room = [0u8; MOST_BUFFER];
    let buffer = &mut room[..length];
    buffer.copy_from_slice(&before[..length]);
    let reply = WriteReply::from(shelf::write_event(event, buffer, place));
    text.put_numbers(kind, &[reply.refusal, reply.length as u64]);
    text.put_more(buffer);
    text.end_line(rt);
}
