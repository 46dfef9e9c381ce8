// The phy's step under its C name. A hot function has an archive of its own, so that everything under it
// is compiled into it.
#![tactic(auto)]

ghost use Rattle.phy.specs.Promises.{Steps};

use event::Event;
use phy::{Phy, Stepped};

#[unsafe(no_mangle)]
pub extern "C" fn louravela_phy_step(phy: Phy, event: Event) -> Stepped
    ensures { Steps phy event result }
{
    phy::step(phy, event)
}
