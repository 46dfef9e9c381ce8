// The bay's step under its C name. A hot function has an archive of its own, so that everything under it
// is compiled into it.
#![tactic(auto)]

ghost use Rattle.bay.specs.Promises.{Steps};

use bay::{Bay, Stepped};
use event::Event;

#[unsafe(no_mangle)]
pub extern "C" fn louravela_bay_step(bay: Bay, event: Event) -> Stepped
    ensures { Steps bay event result }
{
    bay::step(bay, event)
}
