// The port's step under its C name. A hot function has an archive of its own, so that everything under it
// is compiled into it.
#![tactic(auto)]

ghost use Rattle.port.specs.Promises.{Steps};

use bay::Bay;
use event::Event;
use port::Stepped;

#[unsafe(no_mangle)]
pub extern "C" fn louravela_port_step(
    row: &mut [Bay],
    queue: &mut [u64],
    number: u64,
    event: Event,
) -> Stepped
    ensures { Steps row.old queue.old number event result row.new queue.new }
{
    port::step(row, queue, number, event)
}
