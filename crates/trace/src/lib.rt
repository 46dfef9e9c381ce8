// Events of a trace, end to end: each its code and then its arguments, numbers of crate `number` in the
// ranges of crate `event`.
#![tactic(auto)]

ghost use Rattle.std.specs.Prelude.{true, ◌≡◌, length, suc, take};
ghost use Rattle.event.specs.Table.{known_in_trace};
ghost use Rattle.trace.specs.Writing.{all_numbers, event_bytes};
ghost use Rattle.trace.specs.Promises.{ReadsArguments, ReadsNumbers, ReadsEvent, ReachesPlace, StartsReader, TakesNext};
ghost use Rattle.trace.specs.Promises.{HasRoom, FillsBuffer, WritesEvent};

use event::{Event, NO_EVENT};
use number::Found;
use table::Refusal;

// Why no event stands at a place, and the place of the event's first byte.
#[derive(Clone, Copy, Debug, PartialEq, Eq)]
pub struct Fault {
    pub refusal: Refusal,
    pub place: usize,
}

// A lent trace together with the place reached in it.
#[derive(Drop)]
pub struct Reader<'a> {
    pub trace: &'a [u8],
    pub place: usize,
}

// The event of a known code, whose arguments stand from a place on, in the order of the table.
fn read_arguments(s: &[u8], code: u64, place: usize) -> Result<Found<Event>, Refusal>
    ensures { ReadsArguments s.now code place result }
{
    let count = event::argument_count(code);
    // Most events have none: they leave before the loop is set up.
    if count == 0 {
        return Ok(Found {
            value: Event { code, ..NO_EVENT },
            next: place,
        });
    }
    // An argument that the event lacks stays zero. No heap is had, so there is room for the most.
    let mut values = [0u64; 6];
    let mut next = place;
    for i in 0..count {
        let argument = number::read_number(s, next)?;
        let range = event::argument_range(code, i);
        let in_range = (range.least <= argument.value) & (argument.value <= range.most);
        if !in_range {
            return Err(Refusal::BadEvent);
        }
        values[i as usize] = argument.value;
        next = argument.next;
    }
    let event = Event {
        code,
        first: values[0],
        second: values[1],
        third: values[2],
        fourth: values[3],
        fifth: values[4],
        sixth: values[5],
    };
    Ok(Found { value: event, next })
}

// The numbers of an event from a place on: its code, and its arguments once the code is known.
fn read_numbers(s: &[u8], place: usize) -> Result<Found<Event>, Refusal>
    ensures { ReadsNumbers s.now place result }
{
    let code = number::read_number(s, place)?;
    if event::code_in_trace(code.value) {
        return read_arguments(s, code.value, code.next);
    }
    Err(Refusal::BadEvent)
}

// What stands at a place of a trace; any place is taken, and past the last byte, with no event, the trace has
// ended.
pub fn event_at(trace: &[u8], place: usize) -> Result<Option<Found<Event>>, Fault>
    ensures { ReadsEvent trace.now place result }
{
    if trace.len() <= place {
        return Ok(None);
    }
    match read_numbers(trace, place) {
        Ok(found) => Ok(Some(found)),
        Err(refusal) => Err(Fault { refusal, place }),
    }
}

// The place that reading at `place` has reached, whatever is read: only an event moves it.
pub fn place_reached<T: Copy>(read: Result<Option<Found<T>>, Fault>, place: usize) -> usize
    ensures { ReachesPlace read place result }
{
    match read {
        Ok(Some(found)) => found.next,
        _ => place,
    }
}

impl<'a> Reader<'a> {
    // A reader at the first byte of a trace.
    pub fn new(trace: &'a [u8]) -> Reader<'a>
        ensures { StartsReader trace.entry result }
    {
        Reader { trace, place: 0 }
    }

    // What stands at the reader's place; after an event the reader stands behind it.
    pub fn next(&mut self) -> Result<Option<Found<Event>>, Fault>
        ensures { TakesNext self.old result self.new }
    {
        let read = event_at(self.trace, self.place);
        self.place = place_reached(read, self.place);
        read
    }
}

// An event's code and its six arguments, also those that it lacks. A `From` would have to stand in `event`, and be this
// list there, for this crate alone.
fn all_numbers(e: Event) -> [u64; 7]
    ensures { result ≡ all_numbers e }
{
    [
        e.code, e.first, e.second, e.third, e.fourth, e.fifth, e.sixth,
    ]
}

// How many bytes a known event takes.
fn event_length(e: Event) -> usize
    requires { known_in_trace e ≡ true }
    ensures { result ≡ length (event_bytes e) }
{
    let count = event::argument_count(e.code);
    let numbers = all_numbers(e);
    let mut length: usize = 0;
    for number in &numbers[..=count as usize] {
        length += number::number_length(*number);
    }
    length
}

// A known event's numbers at a place that has room for them all, straight into the buffer.
fn write_numbers(e: Event, buffer: &mut [u8], place: usize)
    requires { HasRoom e buffer.old place }
    ensures { FillsBuffer e buffer.old place buffer.new }
{
    let count = event::argument_count(e.code);
    let numbers = all_numbers(e);
    let mut at = place;
    for number in &numbers[..=count as usize] {
        at += number::write_number(*number, buffer, at).unwrap();
    }
}

// An event's bytes at a place of a buffer, once it is known and they are known to fit.
pub fn write_event(e: Event, buffer: &mut [u8], place: usize) -> Result<usize, Refusal>
    ensures { WritesEvent e buffer.old place result buffer.new }
{
    if !event::known_in_trace(e) {
        return Err(Refusal::BadEvent);
    }
    let length = event_length(e);
    // Two tests, as in `number`.
    if buffer.len() < place || buffer.len() - place < length {
        return Err(Refusal::NoRoom);
    }
    write_numbers(e, buffer, place);
    Ok(length)
}
