// Runs stored cases of traces and prints what our functions give. The cases stand on standard input as
// numbers in the trace's own form, each case after the number of its kind; the expected output is made
// by the reference alone.
#![tactic(auto)]

ghost use Rattle.trace_cases.specs.Kinds.{NamesKind};

mod events;
mod runs;
mod traces;

use casefile::{BUFFER, Cases, Input, UnknownKind, list_case, take_all};
use listing::OfPhy;
use output::Text;

// What a case is of.
#[derive(Clone, Copy)]
enum Kind {
    ReadEvent,
    WriteEvent,
    WholeTrace,
    Runs,
    Listing,
}

impl TryFrom<u64> for Kind {
    type Error = UnknownKind;

    ghost try_from_gives = { NamesKind };

    fn try_from(number: u64) -> Result<Kind, UnknownKind> {
        match number {
            6 => Ok(Kind::ReadEvent),
            7 => Ok(Kind::WriteEvent),
            8 => Ok(Kind::WholeTrace),
            9 => Ok(Kind::Runs),
            10 => Ok(Kind::Listing),
            _ => Err(UnknownKind),
        }
    }
}

// The cases of this program.
struct TraceCases;

impl Cases for TraceCases {
    fn take_case(rt: &(impl Print + Eprint), kind: u64, input: &mut Input, text: &mut Text) {
        let Ok(known) = Kind::try_from(kind) else {
            input.end();
            return;
        };
        match known {
            Kind::ReadEvent => events::read_case(rt, kind, input, text),
            Kind::WriteEvent => events::write_case(rt, kind, input, text),
            Kind::WholeTrace => traces::trace_case(rt, kind, input, text),
            Kind::Runs => runs::run_case(rt, kind, input, text),
            Kind::Listing => list_case::<OfPhy>(rt, bay::fresh(), input, text),
        }
    }
}

// The buffer is `main`'s own, so that `take_all` takes any text.
fn main(rt: HostRuntime) {
    let mut out = [0u8; BUFFER];
    let mut text = Text::new(&mut out);
    take_all::<TraceCases>(&rt, &mut rt.stdin(), &mut text);
}
