// Runs stored cases of shelf traces, of ports and of runs over shelf traces, and prints what our functions
// give. The cases stand on standard input as numbers in the trace's own form, each case after the number of
// its kind; the expected output is made by the reference alone.
#![tactic(auto)]

ghost use Rattle.shelf_cases.specs.Kinds.{NamesKind};

mod events;
mod ports;
mod runs;
mod walks;

use casefile::{BUFFER, Cases, Input, UnknownKind, take_all};
use output::Text;

// What a case is of.
#[derive(Clone, Copy)]
enum Kind {
    ReadEvent,
    WriteEvent,
    PortWalk,
    Runs,
}

impl TryFrom<u64> for Kind {
    type Error = UnknownKind;

    ghost try_from_gives = { NamesKind };

    fn try_from(number: u64) -> Result<Kind, UnknownKind> {
        match number {
            12 => Ok(Kind::ReadEvent),
            13 => Ok(Kind::WriteEvent),
            14 => Ok(Kind::PortWalk),
            15 => Ok(Kind::Runs),
            _ => Err(UnknownKind),
        }
    }
}

// The cases of this program.
struct ShelfCases;

impl Cases for ShelfCases {
    fn take_case(rt: &(impl Print + Eprint), kind: u64, input: &mut Input, text: &mut Text) {
        let Ok(known) = Kind::try_from(kind) else {
            input.end();
            return;
        };
        match known {
            Kind::ReadEvent => events::read_case(rt, kind, input, text),
            Kind::WriteEvent => events::write_case(rt, kind, input, text),
            Kind::PortWalk => walks::walk_case(rt, kind, input, text),
            Kind::Runs => runs::run_case(rt, kind, input, text),
        }
    }
}

// The buffer is `main`'s own, so that `take_all` takes any text.
fn main(rt: HostRuntime) {
    let mut out = [0u8; BUFFER];
    let mut text = Text::new(&mut out);
    take_all::<ShelfCases>(&rt, &mut rt.stdin(), &mut text);
}
