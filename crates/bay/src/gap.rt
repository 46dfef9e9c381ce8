// A gap in two legs. A link that a tick can move is in L1 or L4, then in L5, then at rest; or it is moved
// once. So no gap has a third leg, and none of them goes tick by tick.
ghost use Rattle.std.specs.Prelude.{◌≡◌, ◌≤◌, true};
ghost use Rattle.event.specs.Names.{most_counter};
ghost use Rattle.bay.specs.State.{valid_of};
ghost use Rattle.bay.specs.Gap.{gap_of};
ghost use Rattle.bay.specs.Step.{passed, ticks_to, on_stamp};
ghost use Rattle.bay.specs.Legs.{Ready, waited_later, later, leg_of};

use crate::reports::both_legs;
use crate::wait::waited_for;
use crate::{Bay, Leg, Stepped};
use event::Open;
use phy::{L0, L3, P2, Phy, Waited};
use table::ON;

// As far as a counter has moved; it goes round past 4,294,967,295. The first stamp only sets the base.
fn ticks_to(bay: Bay, counter: u64) -> u64
    requires { (valid_of bay ≡ true) × (counter ≤ most_counter) }
    ensures { result ≡ ticks_to bay counter }
{
    if bay.baseSet == ON {
        return std::num::wrapping_sub_u32(counter as u32, bay.base as u32) as u64;
    }
    0
}

// Ticks that pass for a phy: it is valid, and there are no more of them than a counter can move.
#[derive(Clone, Copy)]
struct Stretch<'a> {
    phy: &'a Phy,
    ticks: u64,
    ghost ready: { Ready phy.now ticks },
}

impl Stretch<'_> {
    // How long the request has waited at its end: only one in P2 waits longer.
    fn waited(self) -> Waited
        ensures { result ≡ waited_later self.entry.phy.now self.entry.ticks }
    {
        let waited = Waited {
            wait: self.phy.request.wait,
            part: self.phy.part,
        };
        if self.phy.port == P2 {
            return waited_for(waited, self.ticks);
        }
        waited
    }

    // The phy at its end, where no tick moves the link.
    #[tactic(auto, unfolding(crate::specs::Legs::later))]
    fn end(self) -> Phy
        ensures { result ≡ later self.entry.phy.now self.entry.ticks }
    {
        let waited = self.waited();
        Phy {
            timer: self.phy.timer.saturating_sub(self.ticks),
            request: Open {
                wait: waited.wait,
                ..self.phy.request
            },
            part: waited.part,
            ..*self.phy
        }
    }

    // Up to the tick that moves the link, or all of it where none does.
    fn leg(self) -> Leg
        ensures { result ≡ leg_of self.entry.phy.now self.entry.ticks }
    {
        let phy = self.phy;
        let before = phy.timer.saturating_sub(1);
        if (phy.link == L0) | (phy.link == L3) | (self.ticks <= before) {
            return Leg {
                stepped: self.end().quiet(),
                ticks: self.ticks,
            };
        }
        let last = Stretch {
            phy,
            ticks: before + 1,
        };
        Leg {
            stepped: phy::last_tick(last.end()),
            ticks: last.ticks,
        }
    }

    // All of it, up to a counter.
    fn pass(self, counter: u64) -> Stepped
        ensures { result ≡ passed (gap_of self.entry.phy.now self.entry.ticks) counter }
    {
        let first = self.leg();
        let rest = Stretch {
            phy: &first.stepped.next,
            ticks: self.ticks - first.ticks,
        };
        both_legs(first, rest.leg(), counter)
    }
}

#[tactic(auto, unfolding(crate::specs::Step::on_stamp))]
pub(crate) fn on_stamp(bay: Bay, counter: u64) -> Stepped
    requires { (valid_of bay ≡ true) × (counter ≤ most_counter) }
    ensures { result ≡ on_stamp bay counter }
{
    let stretch = Stretch {
        phy: &bay.phy,
        ticks: ticks_to(bay, counter),
    };
    stretch.pass(counter)
}
