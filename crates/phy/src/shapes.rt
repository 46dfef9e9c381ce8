// The words in which moves are written: shapes of a phy, where what is in use is given and all else is
// zero, and what a step reports with it.
ghost use Rattle.std.specs.Prelude.{◌≡◌};
ghost use Rattle.table.specs.Refusals.{number_of};
ghost use Rattle.phy.specs.Shapes.{requesting, given_up, idle, selected, connected, with_timer, with_waited, with_settings, reports, answers, refused};
ghost use Rattle.phy.specs.Names.{P2 as NamesP2};
ghost use Rattle.phy.specs.Promises.{StartsFresh, StaysQuiet};

use crate::names::{L0, L2, P1, P2, P3, P4};
use crate::{Phy, Settings, Stepped, Waited};
use event::{NO_OPEN, Open};
use table::{OFF, Refusal};

pub(crate) const FRESH: Phy = Phy {
    link: L0,
    port: P1,
    timer: 0,
    request: NO_OPEN,
    part: 0,
    reason: 0,
    inboundSource: 0,
    inboundProtocol: 0,
    connectionProtocol: 0,
    farClosed: OFF,
    settings: Settings { accept: OFF },
};

pub fn fresh() -> Phy
    ensures { StartsFresh result }
{
    FRESH
}

// Each shape keeps the settings.
impl Phy {
    pub(crate) fn idle(self) -> Phy
        ensures { result ≡ idle self.settings }
    {
        Phy {
            settings: self.settings,
            ..FRESH
        }
    }

    // The request that waits, or none, with no connection and no OPEN from the far end.
    pub(crate) fn requesting(self, link: u64, timer: u64) -> Phy
        ensures { result ≡ requesting self.settings link self.port timer self.request self.part }
    {
        Phy {
            link,
            port: self.port,
            timer,
            request: self.request,
            part: self.part,
            ..self.idle()
        }
    }

    // The request is given up: its wait stands, and its answer waits for the link to be idle.
    pub(crate) fn given_up(self, link: u64, timer: u64, reason: u64) -> Phy
        ensures { result ≡ given_up self.settings link timer self.request reason }
    {
        Phy {
            link,
            port: P4,
            timer,
            request: self.request,
            reason,
            ..self.idle()
        }
    }

    // An OPEN from the far end, with the request that waits or none.
    pub(crate) fn selected(self, source: u64, protocol: u64) -> Phy
        ensures { result ≡ selected self.settings self.port self.request self.part source protocol }
    {
        Phy {
            link: L2,
            port: self.port,
            request: self.request,
            part: self.part,
            inboundSource: source,
            inboundProtocol: protocol,
            ..self.idle()
        }
    }

    pub(crate) fn connected(self, link: u64, timer: u64, protocol: u64, farClosed: u64) -> Phy
        ensures { result ≡ connected self.settings link timer protocol farClosed }
    {
        Phy {
            link,
            port: P3,
            timer,
            connectionProtocol: protocol,
            farClosed,
            ..self.idle()
        }
    }
}

// The phy with something else, and all the rest as it is.
impl Phy {
    pub(crate) fn with_timer(self, timer: u64) -> Phy
        ensures { result ≡ with_timer self timer }
    {
        Phy { timer, ..self }
    }

    pub(crate) fn with_waited(self, w: Waited) -> Phy
        ensures { result ≡ with_waited self w }
    {
        Phy {
            request: Open {
                wait: w.wait,
                ..self.request
            },
            part: w.part,
            ..self
        }
    }

    // A request that begins to wait.
    pub(crate) fn with_request(self, request: Open) -> Phy
        ensures { result ≡ record self { port = NamesP2; request = request; part = 0 } }
    {
        Phy {
            port: P2,
            request,
            part: 0,
            ..self
        }
    }

    pub(crate) fn with_settings(self, settings: Settings) -> Phy
        ensures { result ≡ with_settings self settings }
    {
        Phy { settings, ..self }
    }
}

// What a step gives that leads to this phy.
impl Phy {
    // Nothing is reported.
    pub fn quiet(self) -> Stepped
        ensures { StaysQuiet self result }
    {
        Stepped {
            next: self,
            answered: NO_OPEN,
            answer: 0,
            notice: 0,
            sent: 0,
            refusal: 0,
        }
    }

    pub(crate) fn reports(self, notice: u64, sent: u64) -> Stepped
        ensures { result ≡ reports self notice sent }
    {
        Stepped {
            notice,
            sent,
            ..self.quiet()
        }
    }

    // With the arguments of the Open that is answered.
    pub(crate) fn answers(self, answer: u64, request: Open, notice: u64, sent: u64) -> Stepped
        ensures { result ≡ answers self answer request notice sent }
    {
        Stepped {
            answered: request,
            answer,
            ..self.reports(notice, sent)
        }
    }

    pub(crate) fn refused(self, refusal: Refusal) -> Stepped
        ensures { result ≡ refused self (number_of refusal) }
    {
        Stepped {
            refusal: refusal.into(),
            ..self.quiet()
        }
    }
}
