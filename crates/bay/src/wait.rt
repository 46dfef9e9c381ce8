// How long a request has waited after many ticks, in one go.
ghost use Rattle.std.specs.Prelude.{◌≡◌, ◌≤◌};
ghost use Rattle.event.specs.Names.{most_wait, most_counter};
ghost use Rattle.phy.specs.Names.{most_part};
ghost use Rattle.ledger.specs.Wait.{meant, in_field, waited_for};

use event::MOST_WAIT;
use phy::{BEND, Waited};

// The ticks of a millisecond.
const MILLISECOND: u64 = 1000;

// The microseconds that a value of the wait means.
#[tactic(auto, unfolding(ledger::specs::Wait::meant))]
fn meant(value: u64) -> u64
    requires { value ≤ most_wait }
    ensures { result ≡ meant value }
{
    if value < BEND {
        return value;
    }
    BEND + (value - BEND) * MILLISECOND
}

// The wait and its part that mean so many microseconds.
#[tactic(auto, unfolding(ledger::specs::Wait::in_field))]
fn in_field(microseconds: u64) -> Waited
    ensures { result ≡ in_field microseconds }
{
    if microseconds < BEND {
        return Waited {
            wait: microseconds,
            part: 0,
        };
    }
    let beyond = microseconds - BEND;
    Waited {
        wait: BEND + beyond / MILLISECOND,
        part: beyond % MILLISECOND,
    }
}

#[tactic(auto, using(ledger::proofs::Wait::meant_few), unfolding(ledger::specs::Wait::waited_for))]
pub(crate) fn waited_for(w: Waited, n: u64) -> Waited
    requires { (w.wait ≤ most_wait) × (w.part ≤ most_part) × (n ≤ most_counter) }
    ensures { result ≡ waited_for w n }
{
    let most = meant(MOST_WAIT);
    let now = meant(w.wait) + w.part + n;
    if most < now {
        return in_field(most);
    }
    in_field(now)
}
