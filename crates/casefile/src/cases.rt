// A program of cases: it takes one case after the other, each after the number of its kind.
ghost use Rattle.casefile.specs.Promises.{EndsWithin, TakesAll};

use crate::{BUFFER, Input, START, next_case};
use output::Text;
use std::io::Read;

// No case of a program has this number.
#[derive(Clone, Copy)]
pub struct UnknownKind;

// What a program's cases are. What a case works on stays four parameters, here and below: a record of them would
// carry the handle's type and two lifetimes into each signature.
pub trait Cases {
    // The case of a kind, whose numbers come next. An unknown kind ends the run: nothing after it could be told apart.
    fn take_case(rt: &(impl Print + Eprint), kind: u64, input: &mut Input, text: &mut Text)
        ensures { EndsWithin input.old input.new };
}

// All cases of a file, whose output goes out by way of a text. In the first turn nothing is ahead yet: no case is
// there to take. The turns that are left are counted in the turn, as `GoesOn` says.
pub fn take_all<C: Cases>(rt: &(impl Print + Eprint), file: &mut impl Read, text: &mut Text)
    ensures { TakesAll text.new.n }
{
    let mut window = [0u8; BUFFER];
    let mut turn = START;
    while 0 < turn.left {
        let ahead = turn.ahead;
        let mut input = Input {
            s: &window[..ahead.to],
            place: ahead.from,
        };
        let kind = input.take();
        C::take_case(rt, kind, &mut input, text);
        let next = input.place;
        turn = next_case(file, &mut window, turn, next, text);
    }
    text.write_out(rt, 0);
}
