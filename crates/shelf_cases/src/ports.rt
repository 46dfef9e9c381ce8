// Ports of a case: the count of bays, the bays, the length of the queue, its numbers.
ghost use Rattle.std.specs.Prelude.{◌≤◌, ◌≡◌, length};
ghost use Rattle.casefile.specs.Promises.{EndsWithin};
ghost use Rattle.held.specs.Rows.{most_held, front};
ghost use Rattle.held.specs.Promises.{StepsRow};
ghost use Rattle.shelf_run.specs.Promises.{Runs};

use bay::Bay;
use casefile::{Input, phy_numbers, phy_of};
use event::ShelfEvent;
use held::{MOST_HELD, Row};
use output::Text;
use port::Stepped;
use shelf_run::Ran;

// One more than a queue may have.
pub(crate) const MOST_QUEUE: usize = queue::LENGTH + 1;

// The first bays of a row, as many as count, make the port; those behind them are fresh, and are never lent. The
// count stands beside the row, since `StepsRow` of `held` speaks of every bay of it.
#[derive(Drop)]
pub(crate) struct Port<'a> {
    row: Row,
    count: usize,
    queue: &'a mut [u64],
    ghost few: { count ≤ most_held },
}

// phy, base, flag of the base; `cases` reads a bay alike. One function would be a public one of `casefile`, with a
// contract and an edit, for four lines; so it is with the lines that write a bay, here and in both other programs.
fn take_bay(input: &mut Input) -> Bay
    ensures { EndsWithin input.old input.new }
{
    Bay {
        phy: phy_of(input.take_array()),
        base: input.take(),
        baseSet: input.take(),
    }
}

fn put_bay(rt: &(impl Print + Eprint), kind: u64, bay: Bay, text: &mut Text) {
    text.put_numbers(kind, &phy_numbers(bay.phy));
    text.put_more(&[bay.base, bay.baseSet]);
    text.end_line(rt);
}

impl<'a> Port<'a> {
    // The next port, its queue in the lent room.
    pub(crate) fn take(input: &mut Input, room: &'a mut [u64]) -> Port<'a>
        ensures ends_within { EndsWithin input.old input.new }
        ensures in_room { length result.queue.now ≤ length room.old }
    {
        let count = (input.take() as usize).min(MOST_HELD);
        let mut row = Row::fresh();
        for bay in &mut row.bays[..count] {
            *bay = take_bay(input);
        }
        let length = (input.take() as usize).min(room.len());
        let queue = &mut room[..length];
        input.take_many(queue);
        Port { row, count, queue }
    }

    // An event comes to the port.
    pub(crate) fn step(&mut self, e: ShelfEvent) -> Stepped
        ensures steps { StepsRow self.old.row.bays self.old.count self.old.queue.now e.number e.event result
            self.new.row.bays self.new.queue.now }
        ensures same_count { self.new.count ≡ self.old.count }
    {
        self.row.step(self.count, self.queue, e.number, e.event)
    }

    // A run over the port. A copy is lent, since a proof knows nothing of an array in a field of which a part was lent.
    pub(crate) fn run(&mut self, trace: &[u8], budget: usize, buffer: &mut [u8]) -> Ran
        ensures runs { Runs (front self.old.count self.old.row.bays) self.old.queue.now trace.now budget buffer.old result
            (front self.old.count self.new.row.bays) self.new.queue.now buffer.new }
        ensures same_count { self.new.count ≡ self.old.count }
    {
        let mut bays = self.row.bays;
        let ran = shelf_run::run(&mut bays[..self.count], self.queue, trace, budget, buffer);
        self.row = Row { bays };
        ran
    }

    // A line for each bay that counts, and one for the queue.
    pub(crate) fn put(&self, rt: &(impl Print + Eprint), kind: u64, text: &mut Text) {
        for bay in &self.row.bays[..self.count] {
            put_bay(rt, kind, *bay, text);
        }
        text.put_line(rt, kind, self.queue);
    }
}
