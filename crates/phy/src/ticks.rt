// What a tick does: the wait rises first, then the link state decides.
ghost use Rattle.std.specs.Prelude.{◌≡◌, ◌<◌, ◌≤◌, ◌-◌};
ghost use Rattle.phy.specs.Shapes.{quiet, with_timer};
ghost use Rattle.phy.specs.Ticks.{longer, open_failed, close_failed, opened_by, accepted, tick_selected, on_tick_aged, on_tick};
ghost use Rattle.phy.specs.Promises.{EndsState};

use crate::moves::to_idle;
use crate::names::*;
use crate::{Phy, Stepped, Waited};
use event::MOST_WAIT;
use table::{OFF, ON};

impl Waited {
    // Where the wait rises the part is 0: below the bend it was, and above it a whole millisecond has passed.
    #[tactic(auto, unfolding(crate::specs::Ticks::longer))]
    fn longer(self) -> Waited
        ensures { result ≡ longer self }
    {
        if MOST_WAIT <= self.wait {
            return self;
        }
        if (BEND <= self.wait) & (self.part < MOST_PART) {
            return Waited {
                part: self.part + 1,
                ..self
            };
        }
        Waited {
            wait: self.wait + 1,
            part: 0,
        }
    }
}

#[tactic(auto, unfolding(crate::specs::Ticks::opened_by))]
fn opened_by(source: u64, destination: u64) -> u64
    ensures { result ≡ opened_by source destination }
{
    if source == destination {
        return ANSWER_OPENED_BY_DESTINATION;
    }
    ANSWER_OPENED_BY_OTHER
}

fn open_failed(p: Phy) -> Stepped
    ensures { result ≡ open_failed p }
{
    p.given_up(L5, FULL_TIMER, ANSWER_OPEN_TIMEOUT)
        .reports(0, SENT_BREAK)
}

fn close_failed(p: Phy) -> Stepped
    ensures { result ≡ close_failed p }
{
    let next = p.connected(L5, FULL_TIMER, p.connectionProtocol, OFF);
    next.reports(NOTICE_CLOSE_TIMEOUT, SENT_BREAK)
}

// The far end's OPEN is a connection, and our request is answered according to who opened it.
#[tactic(auto, unfolding(crate::specs::Ticks::accepted))]
fn accepted(p: Phy) -> Stepped
    ensures { result ≡ accepted p }
{
    let next = p.connected(L3, 0, p.inboundProtocol, OFF);
    if p.port == P2 {
        let answer = opened_by(p.inboundSource, p.request.destination);
        return next.answers(answer, p.request, NOTICE_OPENED, SENT_OPEN_ACCEPT);
    }
    next.reports(NOTICE_OPENED, SENT_OPEN_ACCEPT)
}

// The accept flag is looked at when the tick comes, and not when the OPEN came.
#[tactic(auto, unfolding(crate::specs::Ticks::tick_selected))]
fn tick_selected(p: Phy) -> Stepped
    ensures { result ≡ tick_selected p }
{
    if p.settings.accept == ON {
        return accepted(p);
    }
    to_idle(p, SENT_OPEN_REJECT)
}

// A running timer falls by one; where it is over its state ends.
fn counts<F: Fn(Phy) -> Stepped>(p: Phy, ends: F) -> Stepped
    requires { F.IsAlwaysCallable ends }
    ensures ends { p.timer ≤ 1 → F.post ends p result }
    ensures falls { 1 < p.timer → result ≡ quiet (with_timer p (p.timer - 1)) }
{
    if p.timer <= 1 {
        return ends(p);
    }
    p.with_timer(p.timer - 1).quiet()
}

// Compiled into both its callers, which saves a tick the copy of a phy.
#[tactic(auto, using(crate::proofs::Counting::counted), unfolding(crate::specs::Ticks::on_tick_aged, crate::specs::Ticks::tick_requesting, crate::specs::Ticks::tick_closing, crate::specs::Ticks::tick_breaking))]
#[inline(always)]
fn on_tick_aged(p: Phy) -> Stepped
    ensures { result ≡ on_tick_aged p }
{
    match p.link {
        L1 => counts(p, open_failed),
        L4 => counts(p, close_failed),
        L5 => counts(p, |p| to_idle(p, 0)),
        L6 => to_idle(p, 0),
        L2 => tick_selected(p),
        _ => p.quiet(),
    }
}

// The tick that ends a link state, for whoever has counted down to it.
#[tactic(auto, unfolding(crate::specs::Ticks::last_tick))]
pub fn last_tick(p: Phy) -> Stepped
    ensures { EndsState p result }
{
    on_tick_aged(p.with_timer(0))
}

// Before all else a tick lets a request in P2 wait longer. A phy with no such request goes on in a branch
// of its own, so that a tick in L0 does nothing to a wait.
#[tactic(auto, unfolding(crate::specs::Ticks::on_tick, crate::specs::Ticks::aged))]
pub(crate) fn on_tick(p: Phy) -> Stepped
    ensures { result ≡ on_tick p }
{
    if p.port == P2 {
        let waited = Waited {
            wait: p.request.wait,
            part: p.part,
        };
        return on_tick_aged(p.with_waited(waited.longer()));
    }
    on_tick_aged(p)
}
