// Steps of the crate `dws`.
use crate::walks::Machine;
use casefile::Input;
use output::Text;

// A state of the crate `dws`, which is a number there.
#[derive(Clone, Copy)]
pub(crate) struct Sync(u64);

impl Machine for Sync {
    fn take_state(input: &mut Input) -> Sync {
        Sync(input.take())
    }

    // event: the refusal, the state and the report
    fn take_item(
        self,
        rt: &(impl Print + Eprint),
        kind: u64,
        input: &mut Input,
        text: &mut Text,
    ) -> Sync {
        let r = dws::step(self.0, input.take());
        text.put_line(rt, kind, &[r.refusal, r.state, r.report]);
        Sync(r.state)
    }
}
