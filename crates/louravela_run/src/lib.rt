// A run of the phy over a trace under its C name. A hot function has an archive of its own, so that
// everything under it is compiled into it.
#![tactic(auto)]

ghost use Rattle.replies.specs.Promises.{Runs};

use phy::Phy;
use replies::RunReply;

#[unsafe(no_mangle)]
pub extern "C" fn louravela_phy_run(
    phy: Phy,
    trace: &[u8],
    budget: usize,
    buffer: &mut [u8],
) -> RunReply
    ensures { Runs phy trace.now budget buffer.old result buffer.new }
{
    replies::run(phy, trace, budget, buffer)
}
