// Runs stored cases of shelf listings, and prints the lister's own lines. The cases stand on standard input as
// numbers in the trace's own form, each case after the number of its kind; the expected output is made by the
// reference alone.
#![tactic(auto)]

use casefile::{BUFFER, Cases, Input, list_case, take_all};
use output::Text;
use shelf_listing::OfShelf;

// The one kind of this program's cases, so that no enum is any plainer.
const LISTING: u64 = 16;

// The cases of this program.
struct ShelfListingCases;

impl Cases for ShelfListingCases {
    // phys, pieces: the listing of the trace that they make
    fn take_case(rt: &(impl Print + Eprint), kind: u64, input: &mut Input, text: &mut Text) {
        if kind != LISTING {
            input.end();
            return;
        }
        let phys = input.take() as usize;
        list_case::<OfShelf>(rt, shelf_listing::fresh(phys), input, text);
    }
}

// The buffer is `main`'s own, so that `take_all` takes any text.
fn main(rt: HostRuntime) {
    let mut out = [0u8; BUFFER];
    let mut text = Text::new(&mut out);
    take_all::<ShelfListingCases>(&rt, &mut rt.stdin(), &mut text);
}
