// Cases of the crate `number`: reading at a place of a byte string, writing into a buffer. Those of events in
// `trace_cases` and `shelf_cases` write and print a buffer alike, and differ in what they write: a closure for that
// would ask something of a caller, which nothing that `casefile` shares does, and a trait a type in each program.
ghost use Rattle.casefile.specs.Promises.{EndsWithin};

use casefile::Input;
use output::Text;

// The buffers of the cases are no longer than this.
const MOST_BUFFER: usize = 64;

// place, bytes: refusal, value, place after it
pub(crate) fn read_case(rt: &(impl Print + Eprint), kind: u64, input: &mut Input, text: &mut Text)
    ensures { EndsWithin input.old input.new }
{
    let place = input.take() as usize;
    let r = replies::read_number(input.take_bytes(), place);
    text.put_line(rt, kind, &[r.refusal, r.value, r.next as u64]);
}

// value, place, buffer before: refusal, length, buffer after
pub(crate) fn write_case(rt: &(impl Print + Eprint), kind: u64, input: &mut Input, text: &mut Text)
    ensures { EndsWithin input.old input.new }
{
    let value = input.take();
    let place = input.take() as usize;
    let before = input.take_bytes();
    let length = before.len().min(MOST_BUFFER);
    let mut room = [0u8; MOST_BUFFER];
    let buffer = &mut room[..length];
    buffer.copy_from_slice(&before[..length]);
    let r = replies::write_number(value, buffer, place);
    text.put_numbers(kind, &[r.refusal, r.length as u64]);
    text.put_more(buffer);
    text.end_line(rt);
}
