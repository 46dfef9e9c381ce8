// Steps of the crate `bay`.
use crate::walks::Machine;
use bay::{Bay, Stepped};
use casefile::{Input, event_of, phy_numbers, phy_of};
use output::Text;

// refusal, answer, both notices and sent, each with its tick, the answer's Open, bay
fn put_stepped(rt: &(impl Print + Eprint), kind: u64, r: Stepped, text: &mut Text) {
    let head = [
        r.refusal,
        r.answer.code,
        r.answer.tick,
        r.notice.code,
        r.notice.tick,
        r.secondNotice.code,
        r.secondNotice.tick,
        r.sent.code,
        r.sent.tick,
    ];
    text.put_numbers(kind, &head);
    text.put_more(&<[u64; 6]>::from(r.answered));
    text.put_more(&phy_numbers(r.next.phy));
    text.put_more(&[r.next.base, r.next.baseSet]);
    text.end_line(rt);
}

impl Machine for Bay {
    fn take_state(input: &mut Input) -> Bay {
        let phy = phy_of(input.take_array());
        let base = input.take();
        let baseSet = input.take();
        Bay { phy, base, baseSet }
    }

    // event: the refusal, the reports and the bay
    fn take_item(
        self,
        rt: &(impl Print + Eprint),
        kind: u64,
        input: &mut Input,
        text: &mut Text,
    ) -> Bay {
        let stepped = bay::step(self, event_of(input.take_array()));
        put_stepped(rt, kind, stepped, text);
        stepped.next
    }
}
