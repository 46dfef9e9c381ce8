// A run over a shelf trace under its C name. A hot function has an archive of its own, so that everything
// under it is compiled into it.
#![tactic(auto)]

ghost use Rattle.shelf_run.specs.Promises.{Runs};

use bay::Bay;
use shelf_run::Ran;

#[unsafe(no_mangle)]
pub extern "C" fn louravela_port_run(
    row: &mut [Bay],
    queue: &mut [u64],
    trace: &[u8],
    budget: usize,
    buffer: &mut [u8],
) -> Ran
    ensures { Runs row.old queue.old trace.now budget buffer.old result row.new queue.new buffer.new }
{
    shelf_run::run(row, queue, trace, budget, buffer)
}
