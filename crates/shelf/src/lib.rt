// Events of a shelf trace, end to end: each the number of its phy, any number of crate `number`, and then the
// event as crate `trace` has it.
#![tactic(auto)]

ghost use Rattle.shelf.specs.Promises.{ReadsShelf, TakesShelf, WritesShelf};

use event::ShelfEvent;
use number::Found;
use table::Refusal;
use trace::{Fault, Reader};

// What stands at a place of a shelf trace; any place is taken, and past the last byte, with no event, the trace
// has ended. A fault has the place of the phy number's first byte.
pub fn event_at(trace: &[u8], place: usize) -> Result<Option<Found<ShelfEvent>>, Fault>
    ensures { ReadsShelf trace.now place result }
{
    if trace.len() <= place {
        return Ok(None);
    }
    let number = match number::read_number(trace, place) {
        Ok(number) => number,
        Err(refusal) => return Err(Fault { refusal, place }),
    };
    let refusal = match trace::event_at(trace, number.next) {
        Ok(Some(event)) => {
            let value = ShelfEvent {
                number: number.value,
                event: event.value,
            };
            return Ok(Some(Found {
                value,
                next: event.next,
            }));
        }
        // A phy number alone is no event.
        Ok(None) => Refusal::Cut,
        Err(fault) => fault.refusal,
    };
    Err(Fault { refusal, place })
}

// What stands at the place of a reader of a shelf trace; after an event the reader stands behind it. It is
// like `Reader::next` but for what it reads: one for both would be these three lines over a trait, with a type of its
// own for each kind of trace.
pub fn next<'a>(reader: &mut Reader<'a>) -> Result<Option<Found<ShelfEvent>>, Fault>
    ensures { TakesShelf reader.old result reader.new }
{
    let read = event_at(reader.trace, reader.place);
    reader.place = trace::place_reached(read, reader.place);
    read
}

// An event's bytes at a place of a buffer. The event is written first, behind the room that the phy number
// takes: where it is refused no byte has changed.
pub fn write_event(e: ShelfEvent, buffer: &mut [u8], place: usize) -> Result<usize, Refusal>
    ensures { WritesShelf e buffer.old place result buffer.new }
{
    let ahead = number::number_length(e.number);
    if buffer.len().saturating_sub(place) < ahead {
        // An event that is not known is refused for that.
        if event::known_in_trace(e.event) {
            return Err(Refusal::NoRoom);
        }
        return Err(Refusal::BadEvent);
    }
    let length = trace::write_event(e.event, buffer, place + ahead)?;
    number::write_number(e.number, buffer, place)?;
    Ok(ahead + length)
}
