// Items of the crate `phy`: each an event and how many times it comes.
use crate::walks::Machine;
use casefile::{Input, event_of, phy_numbers, phy_of};
use output::Text;
use phy::{Phy, Stepped};

// refusal, answer, notice, sent, the answer's Open, phy; a bay's step has a tick with each report and a clock behind
// the phy, so that its line in `bays` shares no more than the numbers of an Open and of a phy
fn put_stepped(rt: &(impl Print + Eprint), kind: u64, r: Stepped, text: &mut Text) {
    text.put_numbers(kind, &[r.refusal, r.answer, r.notice, r.sent]);
    text.put_more(&<[u64; 6]>::from(r.answered));
    text.put_more(&phy_numbers(r.next));
    text.end_line(rt);
}

fn reports(r: Stepped) -> bool {
    (r.refusal != 0) | (r.answer != 0) | (r.notice != 0) | (r.sent != 0)
}

impl Machine for Phy {
    fn take_state(input: &mut Input) -> Phy {
        phy_of(input.take_array())
    }

    // times, event: for each step that has a line the refusal, the reports and the phy. The last step of an item
    // has a line, and so has each that reports something.
    fn take_item(
        self,
        rt: &(impl Print + Eprint),
        kind: u64,
        input: &mut Input,
        text: &mut Text,
    ) -> Phy {
        let times = input.take();
        let event = event_of(input.take_array());
        let mut phy = self;
        for left in (0..times).rev() {
            let stepped = phy::step(phy, event);
            phy = stepped.next;
            if (left == 0) | reports(stepped) {
                put_stepped(rt, kind, stepped, text);
            }
        }
        phy
    }
}
