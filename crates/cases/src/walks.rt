// Cases that are walks of a machine: its state, a count and so many items, each from the state that the
// one before gave.
ghost use Rattle.casefile.specs.Promises.{EndsWithin};

use casefile::Input;
use output::Text;

// A machine's state.
pub(crate) trait Machine: Copy {
    // The state that the next numbers make.
    fn take_state(input: &mut Input) -> Self
        ensures { EndsWithin input.old input.new };

    // The item that comes next: a line for each of its steps that has one, and the state after it.
    fn take_item(
        self,
        rt: &(impl Print + Eprint),
        kind: u64,
        input: &mut Input,
        text: &mut Text,
    ) -> Self
        ensures { EndsWithin input.old input.new };
}

// state, count, items
pub(crate) fn walk_case<M: Machine>(
    rt: &(impl Print + Eprint),
    kind: u64,
    input: &mut Input,
    text: &mut Text,
)
    ensures { EndsWithin input.old input.new }
{
    let mut state = M::take_state(input);
    for _ in 0..input.take() {
        state = state.take_item(rt, kind, input, text);
    }
}
