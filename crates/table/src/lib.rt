// What every machine shares: why an event, a state or bytes are refused, with the paper's numbers, and the numbers
// of a flag. How a definition chooses, by a test or by the row of a table, is in specs/Choice.antt.
#![tactic(auto)]

ghost use Rattle.table.specs.Refusals.{TellsNumber};

// Why something is refused, with the paper's number.
#[derive(Clone, Copy, Debug, PartialEq, Eq)]
pub enum Refusal {
    BadState = 1,
    BadEvent = 2,
    Busy = 3,
    NothingPending = 4,
    NotConnected = 5,
    WrongProtocol = 6,
    Cut = 7,
    // No longer given: numbers may be padded. The number stays taken.
    Overlong = 8,
    TooLarge = 9,
    NoRoom = 10,
    QueueFull = 11,
    NoSuchPhy = 12,
}

impl From<Refusal> for u64 {
    ghost from_gives = { TellsNumber };

    fn from(refusal: Refusal) -> u64 {
        refusal as u64
    }
}

// A flag is a number, so that a record that C lends has its type whatever it holds; any other number is none.
pub const OFF: u64 = 0;

pub const ON: u64 = 1;
