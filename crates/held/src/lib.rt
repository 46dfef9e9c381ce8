// Bays held by value, as a program holds them: the first ones of a row make a port, in the row as it is lent.
#![tactic(auto)]

ghost use Rattle.held.specs.Promises.{FreshRow, StepsRow};

use bay::Bay;
use event::Event;
use port::Stepped;

// One more than a port may have, so that a port of too many can be held too.
pub const MOST_HELD: usize = port::MOST_PHYS + 1;

#[derive(Clone, Copy, Debug, PartialEq, Eq)]
pub struct Row {
    pub bays: [Bay; MOST_HELD],
}

impl Row {
    // Every bay is fresh.
    pub fn fresh() -> Row
        ensures { FreshRow result }
    {
        Row {
            bays: [bay::fresh(); MOST_HELD],
        }
    }

    // A step of the port that the first `count` bays make; no more count than the row holds. A copy is lent, since
    // a proof knows nothing of an array in a field of which a part was lent.
    pub fn step(&mut self, count: usize, queue: &mut [u64], number: u64, event: Event) -> Stepped
        ensures { StepsRow self.old.bays count queue.old number event result self.new.bays queue.new }
    {
        let mut bays = self.bays;
        let stepped = port::step(&mut bays[..count.min(MOST_HELD)], queue, number, event);
        self.bays = bays;
        stepped
    }
}
