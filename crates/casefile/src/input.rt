// Numbers and byte strings of the case file.
ghost use Rattle.casefile.specs.Promises.{Reads, TakesNumber, TakesBytes, TakesNumbers, TakesArray, GoesToEnd};

use number::{Found, read_number};

// A case file, and the place where it is read next. Any place may stand there, as `TakesNumber` says; so where a case
// ends is no invariant, but `EndsWithin` in the contracts.
#[derive(Clone, Copy)]
pub struct Input<'a> {
    pub s: &'a [u8],
    pub place: usize,
}

impl<'a> Input<'a> {
    // The next number; a fault is 0, and then comes the end of the file.
    pub fn take(&mut self) -> u64
        ensures { Reads TakesNumber self.old self.new result }
    {
        let end = Found {
            value: 0,
            next: self.s.len(),
        };
        let found = read_number(self.s, self.place).unwrap_or(end);
        self.place = found.next;
        found.value
    }

    // The next byte string: its length and its bytes, as far as the file has them.
    pub fn take_bytes(&mut self) -> &'a [u8]
        ensures { Reads TakesBytes self.old self.new result.now }
    {
        let length = self.take() as usize;
        let s = self.s;
        let from = self.place;
        let to = from + length.min(s.len() - from);
        self.place = to;
        &s[from..to]
    }

    // A number for each place of an array.
    pub fn take_many(&mut self, numbers: &mut [u64])
        ensures { Reads (TakesNumbers numbers.old) self.old self.new numbers.new }
    {
        for number in numbers {
            *number = self.take();
        }
    }

    // A number for each place of a new array.
    pub fn take_array<const N: usize>(&mut self) -> [u64; N]
        ensures { Reads (TakesArray N) self.old self.new result }
    {
        let mut numbers = [0u64; N];
        self.take_many(&mut numbers);
        numbers
    }

    // The end of the file comes next, whatever is left of it.
    pub fn end(&mut self)
        ensures { GoesToEnd self.old self.new }
    {
        self.place = self.s.len();
    }
}
