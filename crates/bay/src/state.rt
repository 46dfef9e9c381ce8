// Which records are valid, and the fresh one.
ghost use Rattle.std.specs.Prelude.{◌≡◌, ◌&&◌};
ghost use Rattle.bay.specs.State.{valid_base_set, valid_base};
ghost use Rattle.bay.specs.Promises.{StartsFresh, TellsValid, MakesUnstamped};

use crate::Bay;
use event::MOST_COUNTER;
use phy::Phy;
use table::{OFF, ON};

// The clock alone: a base that is not set is zero.
pub(crate) fn valid_clock(bay: Bay) -> bool
    ensures { result ≡ (valid_base_set bay.baseSet && valid_base bay.base bay.baseSet) }
{
    let set = bay.baseSet == ON;
    (bay.baseSet <= ON) & ((set & (bay.base <= MOST_COUNTER)) | (!set & (bay.base == 0)))
}

#[tactic(auto, unfolding(crate::specs::State::valid_of))]
pub fn valid(bay: Bay) -> bool
    ensures { TellsValid bay result }
{
    phy::valid(bay.phy) & valid_clock(bay)
}

// A phy whose recorder has written no stamp yet.
impl From<Phy> for Bay {
    ghost from_gives = { MakesUnstamped };

    fn from(phy: Phy) -> Bay {
        Bay {
            phy,
            base: 0,
            baseSet: OFF,
        }
    }
}

pub fn fresh() -> Bay
    ensures { StartsFresh result }
{
    Bay::from(phy::fresh())
}
