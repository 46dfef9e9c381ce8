// Cases of runs over shelf traces, each over the port that the one before left. Those of `trace_cases` run over
// a phy: a closure for the run would ask something of a caller, and a trait a type in each program.
ghost use Rattle.casefile.specs.Promises.{EndsWithin};

use crate::ports::{MOST_QUEUE, Port};
use casefile::{BUFFER, Input, put_pieces, put_repeats};
use output::Text;
use shelf_run::Ran;

// refusal, count, how, fault, its place
fn put_ran(rt: &(impl Print + Eprint), kind: u64, ran: Ran, text: &mut Text) {
    let stop = ran.stop;
    let line = [
        stop.refusal,
        ran.count as u64,
        stop.how,
        stop.fault,
        stop.place as u64,
    ];
    text.put_line(rt, kind, &line);
}

// budget, length and byte of the buffer, pieces: how the run went, the buffer after it, and the port
fn one_run(
    rt: &(impl Print + Eprint),
    kind: u64,
    port: &mut Port,
    input: &mut Input,
    text: &mut Text,
)
    ensures { EndsWithin input.old input.new }
{
    let budget = input.take() as usize;
    let mut room = [0u8; BUFFER];
    let length = (input.take() as usize).min(BUFFER);
    let buffer = &mut room[..length];
    buffer.fill((input.take() % 256) as u8);
    let mut kept = [0u8; BUFFER];
    let mut trace = Text::new(&mut kept);
    put_pieces(input, &mut trace);
    let ran = port.run(trace.bytes(), budget, buffer);
    put_ran(rt, kind, ran, text);
    put_repeats(rt, text, kind, buffer);
    port.put(rt, kind, text);
}

// port, count, runs: for each the lines
pub(crate) fn run_case(rt: &(impl Print + Eprint), kind: u64, input: &mut Input, text: &mut Text)
    ensures { EndsWithin input.old input.new }
{
    let mut room = [0u64; MOST_QUEUE];
    let mut port = Port::take(input, &mut room);
    for _ in 0..input.take() {
        one_run(rt, kind, &mut port, input, text);
    }
}
