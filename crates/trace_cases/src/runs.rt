// Cases of runs, each from the phy that the one before gave back.
ghost use Rattle.casefile.specs.Promises.{EndsWithin};

use casefile::{BUFFER, Input, phy_numbers, phy_of, put_pieces, put_repeats};
use output::Text;
use phy::Phy;
use replies::RunReply;

// refusal, count, how, fault, its place, bay
fn put_ran(rt: &(impl Print + Eprint), kind: u64, r: RunReply, text: &mut Text) {
    let stop = r.stop;
    let head = [
        stop.refusal,
        r.count as u64,
        stop.how,
        stop.fault,
        stop.place as u64,
    ];
    let bay = r.next;
    text.put_numbers(kind, &head);
    text.put_more(&phy_numbers(bay.phy));
    text.put_more(&[bay.base, bay.baseSet]);
    text.end_line(rt);
}

// budget, length and byte of the buffer, pieces: how the run went, and the buffer after it
fn one_run(
    rt: &(impl Print + Eprint),
    kind: u64,
    phy: Phy,
    input: &mut Input,
    text: &mut Text,
) -> Phy
    ensures { EndsWithin input.old input.new }
{
    let budget = input.take() as usize;
    let length = (input.take() as usize).min(BUFFER);
    let mut room = [0u8; BUFFER];
    let buffer = &mut room[..length];
    buffer.fill((input.take() % 256) as u8);
    let mut kept = [0u8; BUFFER];
    let mut trace = Text::new(&mut kept);
    put_pieces(input, &mut trace);
    let ran = replies::run(phy, trace.bytes(), budget, buffer);
    put_ran(rt, kind, ran, text);
    put_repeats(rt, text, kind, buffer);
    ran.next.phy
}

// phy, count, runs: for each the two lines
pub(crate) fn run_case(rt: &(impl Print + Eprint), kind: u64, input: &mut Input, text: &mut Text)
    ensures { EndsWithin input.old input.new }
{
    let mut phy = phy_of(input.take_array());
    for _ in 0..input.take() {
        phy = one_run(rt, kind, phy, input, text);
    }
}
