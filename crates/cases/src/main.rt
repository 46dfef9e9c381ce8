// Runs stored cases and prints what our functions give, a line for each. The cases stand on standard
// input as numbers in the trace's own form, each case after the number of its kind; the expected
// output is made by the reference alone.
#![tactic(auto)]

ghost use Rattle.cases.specs.Kinds.{NamesKind};

mod bays;
mod idents;
mod numbers;
mod phys;
mod syncs;
mod walks;

use bay::Bay;
use casefile::{BUFFER, Cases, Input, UnknownKind, take_all};
use identify::Identification;
use output::Text;
use phy::Phy;
use syncs::Sync;
use walks::walk_case;

// What a case is of.
#[derive(Clone, Copy)]
enum Kind {
    ReadNumber,
    WriteNumber,
    DwsWalk,
    IdentifyWalk,
    PhyWalk,
    BayWalk,
}

impl TryFrom<u64> for Kind {
    type Error = UnknownKind;

    ghost try_from_gives = { NamesKind };

    fn try_from(number: u64) -> Result<Kind, UnknownKind> {
        match number {
            1 => Ok(Kind::ReadNumber),
            2 => Ok(Kind::WriteNumber),
            3 => Ok(Kind::DwsWalk),
            4 => Ok(Kind::IdentifyWalk),
            5 => Ok(Kind::PhyWalk),
            11 => Ok(Kind::BayWalk),
            _ => Err(UnknownKind),
        }
    }
}

// The cases of this program.
struct MachineCases;

impl Cases for MachineCases {
    fn take_case(rt: &(impl Print + Eprint), kind: u64, input: &mut Input, text: &mut Text) {
        let Ok(known) = Kind::try_from(kind) else {
            input.end();
            return;
        };
        match known {
            Kind::ReadNumber => numbers::read_case(rt, kind, input, text),
            Kind::WriteNumber => numbers::write_case(rt, kind, input, text),
            Kind::DwsWalk => walk_case::<Sync>(rt, kind, input, text),
            Kind::IdentifyWalk => walk_case::<Identification>(rt, kind, input, text),
            Kind::PhyWalk => walk_case::<Phy>(rt, kind, input, text),
            Kind::BayWalk => walk_case::<Bay>(rt, kind, input, text),
        }
    }
}

// The buffer is `main`'s own, so that `take_all` takes any text.
fn main(rt: HostRuntime) {
    let mut out = [0u8; BUFFER];
    let mut text = Text::new(&mut out);
    take_all::<MachineCases>(&rt, &mut rt.stdin(), &mut text);
}
