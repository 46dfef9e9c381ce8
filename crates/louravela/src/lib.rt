// The library's functions under their C names: the fresh phy and bay, the two machines beside them, and
// events of a trace. Steps of a phy and of a bay, runs and numbers stand in archives of their own, since
// they are hot.
#![tactic(auto)]

ghost use Rattle.bay.specs.Promises.{StartsFresh as BayStartsFresh};
ghost use Rattle.dws.specs.Promises.{StartsFresh as DwsStartsFresh, Steps as DwsSteps};
ghost use Rattle.identify.specs.Promises.{StartsFresh as IdentifyStartsFresh, Steps as IdentifySteps};
ghost use Rattle.phy.specs.Promises.{StartsFresh as PhyStartsFresh};
ghost use Rattle.replies.specs.Promises.{ReadsEvent, WritesEvent};

use bay::Bay;
use event::Event;
use identify::Identification;
use phy::Phy;
use replies::{EventReply, WriteReply};

#[unsafe(no_mangle)]
pub extern "C" fn louravela_phy_fresh() -> Phy
    ensures { PhyStartsFresh result }
{
    phy::fresh()
}

#[unsafe(no_mangle)]
pub extern "C" fn louravela_bay_fresh() -> Bay
    ensures { BayStartsFresh result }
{
    bay::fresh()
}

#[unsafe(no_mangle)]
pub extern "C" fn louravela_dws_fresh() -> u64
    ensures { DwsStartsFresh result }
{
    dws::fresh()
}

#[unsafe(no_mangle)]
pub extern "C" fn louravela_dws_step(state: u64, event: u64) -> dws::Stepped
    ensures { DwsSteps state event result }
{
    dws::step(state, event)
}

#[unsafe(no_mangle)]
pub extern "C" fn louravela_identify_fresh() -> Identification
    ensures { IdentifyStartsFresh result }
{
    identify::fresh()
}

#[unsafe(no_mangle)]
pub extern "C" fn louravela_identify_step(
    state: Identification,
    event: u64,
    argument: u64,
) -> identify::Stepped
    ensures { IdentifySteps state event argument result }
{
    identify::step(state, event, argument)
}

#[unsafe(no_mangle)]
pub extern "C" fn louravela_event_read(trace: &[u8], place: usize) -> EventReply
    ensures { ReadsEvent trace.now place result }
{
    replies::read_event(trace, place)
}

#[unsafe(no_mangle)]
pub extern "C" fn louravela_event_write(event: Event, buffer: &mut [u8], place: usize) -> WriteReply
    ensures { WritesEvent event buffer.old place result buffer.new }
{
    replies::write_event(event, buffer, place)
}
