// The case file through a window: what is not yet read of it moves to the front as it runs low, and
// more is read behind it. A run takes one case after the other.
ghost use Rattle.casefile.specs.Promises.{Slides, GoesOn};

use crate::{Ahead, NOTHING, Turn};
use output::{Text, read_full};
use std::io::Read;

// A case takes no more than this of the case file.
const MOST_CASE: usize = 32768;

// The window with a whole case ahead, as long as the file has one. Only what lies in the window counts
// as ahead.
fn slide(file: &mut impl Read, window: &mut [u8], ahead: Ahead) -> Ahead
    ensures { Slides window.old ahead result window.new }
{
    let from = ahead.from;
    let to = ahead.to.min(window.len());
    if to < from {
        return Ahead {
            ended: ahead.ended,
            ..NOTHING
        };
    }
    if ahead.ended | (MOST_CASE <= to - from) {
        return Ahead { to, ..ahead };
    }
    window.copy_within(from..to, 0);
    let kept = to - from;
    let more = read_full(file, &mut window[kept..]);
    Ahead {
        from: 0,
        to: kept + more,
        ended: more == 0,
    }
}

// The turn after one that took a case up to a place of the case file. The run is over where nothing is
// ahead or a write failed.
pub fn next_case(
    file: &mut impl Read,
    window: &mut [u8],
    turn: Turn,
    next: usize,
    text: &Text,
) -> Turn
    ensures { GoesOn window.old turn (record { next = next; n = text.now.n }) result window.new }
{
    let failed = text.is_lost();
    let behind = Ahead {
        from: next,
        to: turn.ahead.to,
        ended: turn.ahead.ended | failed,
    };
    let ahead = slide(file, window, behind);
    let over = failed | (ahead.to <= ahead.from);
    Turn {
        left: if over { 0 } else { turn.left.saturating_sub(1) },
        ahead,
        n: text.n,
    }
}
