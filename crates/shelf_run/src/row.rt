// A row's records, into a table by value and back.
ghost use Rattle.std.specs.Prelude.{◌≡◌};
ghost use Rattle.shelf_run.specs.Rows.{loaded, stored};
ghost use Rattle.shelf_run.specs.Promises.{Runs};

use crate::events::{empty, over};
use crate::{Ran, Table};
use bay::Bay;
use port::{MOST_PHYS, begun, survey};

// The records of a row, as many as fit.
pub(crate) fn load(row: &[Bay], table: Table) -> Table
    ensures { result.bays ≡ loaded row.now table.bays }
{
    let n = row.len().min(MOST_PHYS);
    let mut bays = table.bays;
    bays[..n].copy_from_slice(&row[..n]);
    Table { bays }
}

// The records of a table put back into the row, as many as fit; what is behind them is left.
pub(crate) fn store(row: &mut [Bay], table: Table)
    ensures { row.new ≡ stored row.old table.bays }
{
    let n = row.len().min(MOST_PHYS);
    let bays = table.bays;
    row[..n].copy_from_slice(&bays[..n]);
}

// Any row, queue, trace, budget and buffer. The rules are in `over`; this lends, and puts back. The five stay apart,
// here and in `over`: C lends them so.
pub fn run(
    row: &mut [Bay],
    queue: &mut [u64],
    trace: &[u8],
    budget: usize,
    buffer: &mut [u8],
) -> Ran
    ensures { Runs row.old queue.old trace.now budget buffer.old result row.new queue.new buffer.new }
{
    let scan = survey(row, begun());
    let table = load(row, empty());
    let gone = over(scan, table, queue, trace, budget, buffer);
    store(row, gone.table);
    gone.ran
}
