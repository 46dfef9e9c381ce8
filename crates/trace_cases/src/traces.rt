// Cases of whole traces: each event is read and written again where it stood.
ghost use Rattle.casefile.specs.Promises.{EndsWithin};

use crate::events::put_said;
use casefile::{Input, put_repeats};
use output::Text;

// What the copy is filled with, so that a byte to which no event was written shows.
const UNTOUCHED: u8 = 255;

// A copy has no more bytes than this.
const MOST_COPY: usize = 4096;

// A line for each event and for what ends the trace, and the copy that the events make. An event takes a byte at
// least, so the trace ends before the turns do.
fn put_events(
    rt: &(impl Print + Eprint),
    kind: u64,
    trace: &[u8],
    copy: &mut [u8],
    text: &mut Text,
) {
    let mut place = 0;
    for _ in 0..=trace.len() {
        let said = replies::read_event(trace, place);
        put_said(rt, kind, said, text);
        if said.how != replies::FOUND_EVENT {
            put_repeats(rt, text, kind, copy);
            return;
        }
        replies::write_event(said.event, copy, place);
        place = said.next;
    }
}

// bytes, as many as the copy has room for: the lines of their events, and the copy
pub(crate) fn trace_case(rt: &(impl Print + Eprint), kind: u64, input: &mut Input, text: &mut Text)
    ensures { EndsWithin input.old input.new }
{
    let trace = input.take_bytes();
    let mut copy = [UNTOUCHED; MOST_COPY];
    put_events(
        rt,
        kind,
        trace,
        &mut copy[..trace.len().min(MOST_COPY)],
        text,
    );
}
