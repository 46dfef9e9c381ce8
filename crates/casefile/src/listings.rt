// Cases of listings: the lister's own lines, with nothing before them.
ghost use Rattle.casefile.specs.Promises.{TakesPieces};

use crate::{BUFFER, Input, put_pieces};
use lines::{Listing, MOST_TRACE, Written};
use output::{GATHERED, Text};

// How long a trace is of which this much was kept.
fn total(kept: usize, whole: bool) -> usize {
    if whole { kept } else { MOST_TRACE + 1 }
}

// The lines of a trace that is `total` bytes long, from a state on. A line has no room only after a failed write:
// otherwise what is gathered goes out while one still has.
fn put_listing<L: Listing>(
    rt: &(impl Print + Eprint),
    from: L::State,
    trace: &[u8],
    total: usize,
    text: &mut Text,
) {
    let mut progress = lines::start(total);
    let mut state = from;
    loop {
        let listed = L::next_line(trace, progress, state, text);
        state = listed.state;
        let Ok(Written::Line { next, .. }) = listed.written else {
            return;
        };
        progress = next;
        text.write_out(rt, GATHERED);
    }
}

// pieces: the listing of the trace that they make, from a state on
pub fn list_case<L: Listing>(
    rt: &(impl Print + Eprint),
    from: L::State,
    input: &mut Input,
    text: &mut Text,
)
    ensures { TakesPieces input.old input.new }
{
    let mut room = [0u8; BUFFER];
    let mut trace = Text::new(&mut room);
    let whole = put_pieces(input, &mut trace);
    put_listing::<L>(rt, from, trace.bytes(), total(trace.n, whole), text);
}
