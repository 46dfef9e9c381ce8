// Steps of the crate `identify`.
ghost use Rattle.std.specs.Prelude.{◌≡◌, get_or};

use crate::walks::Machine;
use casefile::Input;
use identify::Identification;
use output::Text;

// The numbers of an identification, in the case file and in a line: in the paper's order, which is not
// the record's.
const FIELDS: usize = 7;

// No `From` stands with the record: the order is the case file's.
fn identification(f: [u64; FIELDS]) -> Identification
    ensures { result ≡ record { receiver = get_or f 0 0; count = get_or f 1 0; typed = get_or f 2 0; got = get_or f 3 0; sent = get_or f 4 0; timer = get_or f 5 0; outcome = get_or f 6 0 } }
{
    Identification {
        receiver: f[0],
        count: f[1],
        timer: f[5],
        outcome: f[6],
        typed: f[2],
        got: f[3],
        sent: f[4],
    }
}

impl Machine for Identification {
    fn take_state(input: &mut Input) -> Identification {
        identification(input.take_array())
    }

    // event, argument: the refusal, the report and the identification
    fn take_item(
        self,
        rt: &(impl Print + Eprint),
        kind: u64,
        input: &mut Input,
        text: &mut Text,
    ) -> Identification {
        let event = input.take();
        let r = identify::step(self, event, input.take());
        let i = r.next;
        let said = [
            r.refusal, r.report, i.receiver, i.count, i.typed, i.got, i.sent, i.timer, i.outcome,
        ];
        text.put_line(rt, kind, &said);
        i
    }
}
