// A case file: its numbers, byte strings and records, and the window through which a program reads it.
// What a fault spoils is left out, and the comparison with the expected output then fails.
#![tactic(auto)]

mod cases;
mod input;
mod listings;
mod pieces;
mod records;
mod repeats;
mod window;

pub use cases::{Cases, UnknownKind, take_all};
pub use input::Input;
pub use listings::list_case;
pub use pieces::{put_piece, put_pieces};
pub use records::{event_of, phy_numbers, phy_of};
pub use repeats::put_repeats;
pub use window::next_case;

// The bytes of a program's buffers: of the window, the output and whatever a case fills.
pub const BUFFER: usize = 65536;

// The numbers of a phy.
pub const PHY_NUMBERS: usize = 16;

// The numbers of an event: its code and six arguments.
pub const EVENT_NUMBERS: usize = 7;

// The part of the window that holds what is to come, and whether the file has ended. `Slides` names all three, so the
// part is no slice, and says of each whatever the others are.
#[derive(Clone, Copy, Debug, PartialEq, Eq)]
pub struct Ahead {
    pub from: usize,
    pub to: usize,
    pub ended: bool,
}

// A turn of a run, which takes the case that begins what is ahead, and how much output is gathered. Where no
// turn is left the run is over. `n` is the text's place once more, since `GoesOn` says so (`gathered`).
#[derive(Clone, Copy, Debug, PartialEq, Eq)]
pub struct Turn {
    pub left: u64,
    pub ahead: Ahead,
    pub n: usize,
}

// Nothing is read yet.
const NOTHING: Ahead = Ahead {
    from: 0,
    to: 0,
    ended: false,
};

// The first turn of a run: more turns may come than any case file has cases.
pub const START: Turn = Turn {
    left: 4294967296,
    ahead: NOTHING,
    n: 0,
};
