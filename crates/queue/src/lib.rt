// The Opens that wait at a port, oldest first, lent as numbers: six for each Open in use, in the order of
// its fields, and behind them zeros. They are numbers and no Opens, since C callers lend them.
#![tactic(auto)]

ghost use Rattle.std.specs.Prelude.{◌+◌, ◌≤◌, ◌≡◌, length, get_or, drop};
ghost use Rattle.std.proofs.lemmas.List.Edits.{sets};
ghost use Rattle.queue.specs.Lent.{most_waiting, lent_length, open_from, queue_in, all_zero};
ghost use Rattle.queue.specs.Promises.{Judges, GivesOldest, Joins, Advances};

use event::Open;

// At most this many Opens wait.
pub const MOST_WAITING: u64 = 32;

// An Open is this many numbers.
const NUMBERS_EACH: usize = 6;

// So many numbers are lent.
pub const LENGTH: usize = 192;

// Whether numbers are Opens as they are lent, and how many of these wait. No Option: `Judges` settles how many
// wait by numbers that are not good too, and a port that is refused is reported with them.
#[derive(Clone, Copy, Debug, PartialEq, Eq)]
pub struct Judgement {
    pub good: bool,
    pub waiting: u64,
}

// The number at a place; one that is missing is zero.
fn number_at(queue: &[u64], at: usize) -> u64
    ensures { result ≡ get_or queue.now at 0 }
{
    queue.get(at).copied().unwrap_or(0)
}

// The Open at a place.
#[tactic(auto, unfolding(crate::specs::Lent::open_from))]
fn open_at(queue: &[u64], at: usize) -> Open
    requires { at ≤ lent_length }
    ensures { result ≡ open_from (drop at queue.now) }
{
    Open {
        destination: number_at(queue, at),
        protocol: number_at(queue, at + 1),
        rate: number_at(queue, at + 2),
        tag: number_at(queue, at + 3),
        blockedCount: number_at(queue, at + 4),
        wait: number_at(queue, at + 5),
    }
}

// How many Opens wait: those in front up to the first that is not known.
#[tactic(auto, using(crate::proofs::Loops::counting))]
fn count_waiting(queue: &[u64]) -> u64
    ensures counted { result ≡ length (queue_in queue.now) }
    ensures few { result ≤ most_waiting }
{
    for waiting in 0..MOST_WAITING {
        if !event::open_known(open_at(queue, NUMBERS_EACH * waiting as usize)) {
            return waiting;
        }
    }
    MOST_WAITING
}

// Whether numbers are all zero.
fn all_zero(numbers: &[u64]) -> bool
    ensures { result ≡ all_zero numbers.now }
{
    numbers.iter().all(|&n| n == 0)
}

// Judges numbers of any length, before they are used.
#[tactic(auto, unfolding(crate::specs::Lent::good_lent))]
pub fn judged(queue: &[u64]) -> Judgement
    ensures { Judges queue.now result }
{
    let waiting = count_waiting(queue);
    let good = (queue.len() == LENGTH) && all_zero(&queue[NUMBERS_EACH * waiting as usize..]);
    Judgement { good, waiting }
}

// The Open that has waited longest.
pub fn oldest(queue: &[u64]) -> Open
    ensures { GivesOldest queue.now result }
{
    open_at(queue, 0)
}

// One Open more behind those that wait; without room nothing changes.
#[tactic(auto, using(crate::proofs::Places::put_run), unfolding(crate::specs::Lent::joined))]
pub fn join(queue: &mut [u64], waiting: u64, open: Open)
    ensures { Joins queue.old waiting «open» queue.new }
{
    if (waiting < MOST_WAITING) & (queue.len() == LENGTH) {
        let at = NUMBERS_EACH * waiting as usize;
        queue[at..at + NUMBERS_EACH].copy_from_slice(&<[u64; NUMBERS_EACH]>::from(open));
    }
}

// The oldest of those that wait is gone and the others move up; only what is in use moves.
#[tactic(auto, unfolding(crate::specs::Lent::advanced))]
pub fn advance(queue: &mut [u64], waiting: u64)
    ensures { Advances queue.old waiting queue.new }
{
    if (1 <= waiting) & (waiting <= MOST_WAITING) & (queue.len() == LENGTH) {
        let used = NUMBERS_EACH * waiting as usize;
        queue.copy_within(NUMBERS_EACH..used, 0);
        queue[used - NUMBERS_EACH..used].fill(0);
    }
}
