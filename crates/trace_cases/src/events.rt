// Cases of single events: reading at a place of a byte string, writing into a buffer.
ghost use Rattle.output.specs.Promises.{Extends, PutsNumbersLine};
ghost use Rattle.casefile.specs.Promises.{EndsWithin};
ghost use Rattle.trace_cases.specs.Lines.{reply_numbers};

use casefile::{Input, event_of};
use output::Text;
use replies::EventReply;

// The buffers of the cases are no longer than this.
const MOST_BUFFER: usize = 96;

// how, refusal, place reached, code, arguments
pub(crate) fn put_said(rt: &(impl Print + Eprint), kind: u64, said: EventReply, text: &mut Text)
    ensures { Extends (PutsNumbersLine kind (reply_numbers said)) text.old text.new }
{
    let e = said.event;
    let line = [
        said.how,
        said.refusal,
        said.next as u64,
        e.code,
        e.first,
        e.second,
        e.third,
        e.fourth,
        e.fifth,
        e.sixth,
    ];
    text.put_line(rt, kind, &line);
}

// place, bytes: what was read there
pub(crate) fn read_case(rt: &(impl Print + Eprint), kind: u64, input: &mut Input, text: &mut Text)
    ensures { EndsWithin input.old input.new }
{
    let place = input.take() as usize;
    let said = replies::read_event(input.take_bytes(), place);
    put_said(rt, kind, said, text);
}

// place, event, buffer before: refusal, length, buffer after
pub(crate) fn write_case(rt: &(impl Print + Eprint), kind: u64, input: &mut Input, text: &mut Text)
    ensures { EndsWithin input.old input.new }
{
    let place = input.take() as usize;
    let event = event_of(input.take_array());
    let before = input.take_bytes();
    let length = before.len().min(MOST_BUFFER);
    let mut room = [0u8; MOST_BUFFER];
    let buffer = &mut room[..length];
    buffer.copy_from_slice(&before[..length]);
    let r = replies::write_event(event, buffer, place);
    text.put_numbers(kind, &[r.refusal, r.length as u64]);
    text.put_more(buffer);
    text.end_line(rt);
}
