// Cases that walk a port: each event comes to the port that the one before left.
ghost use Rattle.casefile.specs.Promises.{EndsWithin};

use crate::events::take_event;
use crate::ports::{MOST_QUEUE, Port};
use casefile::Input;
use output::Text;
use port::Stepped;

// refusal, answer, both notices and sent, each with its tick, the answer's Open, the phy that received an
// Open, what it sent
fn put_stepped(rt: &(impl Print + Eprint), kind: u64, stepped: Stepped, text: &mut Text) {
    let reports = stepped.reports;
    let head = [
        reports.refusal,
        reports.answer.code,
        reports.answer.tick,
        reports.notice.code,
        reports.notice.tick,
        reports.secondNotice.code,
        reports.secondNotice.tick,
        reports.sent.code,
        reports.sent.tick,
    ];
    text.put_numbers(kind, &head);
    text.put_more(&<[u64; 6]>::from(reports.answered));
    text.put_more(&[stepped.handed, stepped.handedSent]);
    text.end_line(rt);
}

// port, count, events: what each gives, and the port after the last
pub(crate) fn walk_case(rt: &(impl Print + Eprint), kind: u64, input: &mut Input, text: &mut Text)
    ensures { EndsWithin input.old input.new }
{
    let mut room = [0u64; MOST_QUEUE];
    let mut port = Port::take(input, &mut room);
    for _ in 0..input.take() {
        let stepped = port.step(take_event(input));
        put_stepped(rt, kind, stepped, text);
    }
    port.put(rt, kind, text);
}
