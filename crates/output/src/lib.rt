// Lines of text, gathered in a buffer: decimal numbers, one blank between two. What has no room is left out.
#![tactic(auto)]

ghost use Rattle.std.specs.Prelude.{ℕ, [], ◌∷◌, ◌≡◌, ◌≤◌, ◌⊎◌, MatchResult};
ghost use Rattle.output.specs.Decimal.{decimal};
ghost use Rattle.output.specs.Writing.{further, lost, stays_gathered as stays};
ghost use Rattle.output.specs.Promises.{Extends, StartsText, TellsValue, ShowsBytes, Puts, PutsAll, PutsMore, PutsNumbers};
ghost use Rattle.output.specs.Promises.{WritesOut, GoesOut, TellsLost, EndsLine, PutsNumbersLine};

mod system;

use itoa::Buffer;
use std::io::ErrorKind;
pub use system::{fail, read_full};

// The output is written once this much is gathered, so that a line always has room.
pub const GATHERED: usize = 32768;

// The place after a write that failed. No buffer has it, so nothing that comes later has room. It is a number
// because `PutsStayLost`, `LinesStayLost` and `OutStaysLost` of specs/Laws speak of that place.
pub const LOST: usize = usize::MAX;

// What a line shows as a number. A bound `Into<u64>` gives a relation, and the contract needs the number itself.
pub trait Number: Copy {
    ghost value: { Self → ℕ };

    fn number(self) -> u64
        ensures { TellsValue value self result };
}

impl Number for u64 {
    ghost value = { λ n. n };

    fn number(self) -> u64 {
        self
    }
}

impl Number for u8 {
    ghost value = { λ n. n };

    fn number(self) -> u64 {
        u64::from(self)
    }
}

// The buffer in which a text is gathered, and the place where it goes on.
#[derive(Drop)]
pub struct Text<'a> {
    pub out: &'a mut [u8],
    pub n: usize,
}

impl<'a> Text<'a> {
    // A text that begins at the start of a buffer.
    pub fn new(out: &'a mut [u8]) -> Text<'a>
        ensures { StartsText out.entry result }
    {
        Text { out, n: 0 }
    }

    // What is gathered, as far as the buffer holds it.
    pub fn bytes(&self) -> &[u8]
        ensures { ShowsBytes self.now.out.now self.now.n result.now }
    {
        &self.out[..self.n.min(self.out.len())]
    }

    fn put(&mut self, b: u8)
        ensures { Extends (Puts (b ∷ [])) self.old self.new }
    {
        if self.n < self.out.len() {
            self.out[self.n] = b;
            self.n += 1;
        }
    }

    // Two bytes, one test for both where both have room.
    fn put_both(&mut self, a: u8, b: u8)
        ensures { Extends (Puts (a ∷ b ∷ [])) self.old self.new }
    {
        let n = self.n;
        if n < self.out.len() && n + 1 < self.out.len() {
            self.out[n] = a;
            self.out[n + 1] = b;
            self.n = n + 2;
            return;
        }
        self.put(a);
        self.put(b);
    }

    // Bytes as they are, as many as have room.
    pub fn put_all(&mut self, bytes: &[u8])
        ensures { Extends (PutsAll bytes.now) self.old self.new }
    {
        let at = self.n.min(self.out.len());
        let fits = bytes.len().min(self.out.len() - at);
        self.out[at..at + fits].copy_from_slice(&bytes[..fits]);
        self.n += fits;
    }

    // The digits of a number that has several; two are put without the library's buffer (docs/SPEED.md).
    fn put_digits(&mut self, value: u64)
        requires { 10 ≤ value }
        ensures { Extends (Puts (decimal value)) self.old self.new }
    {
        if value < 100 {
            self.put_both(b'0' + (value / 10) as u8, b'0' + (value % 10) as u8);
            return;
        }
        self.put_all(Buffer::new().format(value).as_bytes());
    }

    // The digits of a number. Most have one, and need no buffer either.
    fn put_number(&mut self, value: u64)
        ensures { Extends (Puts (decimal value)) self.old self.new }
    {
        if value < 10 {
            self.put(b'0' + value as u8);
            return;
        }
        self.put_digits(value);
    }

    // A further number of a line; of one digit, it is put with its blank.
    fn put_next(&mut self, value: u64)
        ensures { Extends (Puts (further value)) self.old self.new }
    {
        if value < 10 {
            self.put_both(b' ', b'0' + value as u8);
            return;
        }
        self.put(b' ');
        self.put_digits(value);
    }

    // Each as a further number of a line.
    pub fn put_more<T: Number>(&mut self, numbers: &[T])
        ensures { Extends (PutsMore T.value numbers.now) self.old self.new }
    {
        for number in numbers {
            self.put_next(number.number());
        }
    }

    // The first number of a line and then the others.
    pub fn put_numbers(&mut self, first: u64, others: &[u64])
        ensures { Extends (PutsNumbers first others.now) self.old self.new }
    {
        self.put_number(first);
        self.put_more(others);
    }

    // Whether a write has failed.
    pub fn is_lost(&self) -> bool
        ensures { TellsLost self.now.n result }
    {
        self.n == LOST
    }

    // The place after writing out: where a text that may change lends its buffer a proof knows nothing of the bytes.
    fn place_written(&self, rt: &(impl Print + Eprint)) -> usize
        ensures { (result ≡ 0) ⊎ (result ≡ lost) }
    {
        write_now(rt, self.out, self.n)
    }

    // What is gathered goes out once it is `least` or more. What stays is left in a branch of its own, which then needs
    // nothing of what a write needs.
    pub fn write_out(&mut self, rt: &(impl Print + Eprint), least: usize)
        ensures { Extends (GoesOut least) self.old self.new }
    {
        if stays_gathered(self.n, least) {
            return;
        }
        self.n = self.place_written(rt);
    }

    // The end of a line, after which a full buffer is written.
    pub fn end_line(&mut self, rt: &(impl Print + Eprint))
        ensures { Extends EndsLine self.old self.new }
    {
        self.put(b'\n');
        self.write_out(rt, GATHERED);
    }

    // A whole line.
    pub fn put_line(&mut self, rt: &(impl Print + Eprint), first: u64, others: &[u64])
        ensures { Extends (PutsNumbersLine first others.now) self.old self.new }
    {
        self.put_numbers(first, others);
        self.end_line(rt);
    }
}

// The place after a write. What is lost is told on standard error; whoever closed a pipe needs no telling.
fn after_write(rt: &impl Eprint, written: std::io::Result<()>) -> usize
    ensures { MatchResult written (λ _. result ≡ 0) (λ _. result ≡ lost) }
{
    match written {
        Ok(()) => 0,
        Err(error) if error.kind() == ErrorKind::BrokenPipe => LOST,
        Err(error) => fail(rt, "not all was written to standard output", &error),
    }
}

// Whether so many bytes stay gathered, where `least` of them are written.
fn stays_gathered(n: usize, least: usize) -> bool
    ensures { result ≡ stays n least }
{
    (n < least) | (n == LOST)
}

// Writes n bytes of a buffer, as far as it holds them.
fn write_now(rt: &(impl Print + Eprint), out: &[u8], n: usize) -> usize
    ensures { (result ≡ 0) ⊎ (result ≡ lost) }
{
    after_write(rt, rt.write_all(&out[..n.min(out.len())]))
}

// Writes n bytes that are gathered in a buffer, as far as it holds them, once they are `least` or more, and gives how
// many are gathered then. No contract can say what a call writes, so no other branch skips the write. `out` and `n`
// stay apart: `WritesOut` speaks of any n.
pub fn write_gathered(rt: &(impl Print + Eprint), out: &[u8], n: usize, least: usize) -> usize
    ensures { WritesOut n least result }
{
    if stays_gathered(n, least) {
        return n;
    }
    write_now(rt, out, n)
}
