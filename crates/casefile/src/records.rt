// The records that a case file holds as numbers, in the order of their fields. A `From` in `phy` or `event` would be
// the same list there, for programs of cases alone.
ghost use Rattle.casefile.specs.Promises.{MakesPhy, GivesNumbers, MakesEvent};

use crate::{EVENT_NUMBERS, PHY_NUMBERS};
use event::{Event, Open};
use phy::{Phy, Settings};

pub fn phy_of(f: [u64; PHY_NUMBERS]) -> Phy
    ensures { MakesPhy f result }
{
    let request = Open {
        destination: f[3],
        protocol: f[4],
        rate: f[5],
        tag: f[6],
        blockedCount: f[7],
        wait: f[8],
    };
    let settings = Settings { accept: f[15] };
    Phy {
        link: f[0],
        port: f[1],
        timer: f[2],
        request,
        part: f[9],
        reason: f[10],
        inboundSource: f[11],
        inboundProtocol: f[12],
        connectionProtocol: f[13],
        farClosed: f[14],
        settings,
    }
}

// The numbers from which `phy_of` makes the phy again.
pub fn phy_numbers(p: Phy) -> [u64; PHY_NUMBERS]
    ensures { GivesNumbers p result }
{
    let request = p.request;
    let settings = p.settings;
    [
        p.link,
        p.port,
        p.timer,
        request.destination,
        request.protocol,
        request.rate,
        request.tag,
        request.blockedCount,
        request.wait,
        p.part,
        p.reason,
        p.inboundSource,
        p.inboundProtocol,
        p.connectionProtocol,
        p.farClosed,
        settings.accept,
    ]
}

pub fn event_of(f: [u64; EVENT_NUMBERS]) -> Event
    ensures { MakesEvent f result }
{
    Event {
        code: f[0],
        first: f[1],
        second: f[2],
        third: f[3],
        fourth: f[4],
        fifth: f[5],
        sixth: f[6],
    }
}
