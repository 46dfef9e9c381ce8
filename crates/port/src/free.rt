// The free phys of a port as a mask: a bit for each, by its number. Whether any is free, which is the lowest, and
// what becomes of the mask.
ghost use Rattle.std.specs.Prelude.{◌<◌, ◌^◌, true, false, ◌≡◌, MatchOption};
ghost use Rattle.port.specs.Stages.{some_free, lowest_in, free_after};

// The number of a phy that has a bit in a mask.
#[derive(Clone, Copy)]
pub(crate) struct PhyNumber {
    pub(crate) number: u64,
    ghost in_mask: { number < 64 },
}

impl PhyNumber {
    pub(crate) fn bit(self) -> u64
        ensures { result ≡ 2 ^ self.number }
    {
        1u64 << self.number
    }
}

// Whether any phy of a mask is free.
pub(crate) fn some_free(free: u64) -> bool
    ensures { result ≡ some_free free }
{
    0 < free.count_ones()
}

// The lowest of them as a number, which is past every phy where none is free: a place in a row, and what is told.
pub(crate) fn lowest_in(free: u64) -> u64
    ensures { result ≡ lowest_in free }
{
    free.trailing_zeros() as u64
}

// The lowest of them, if any is free.
#[tactic(auto, using(crate::proofs::Mask::lowest_small))]
pub(crate) fn lowest_free(free: u64) -> Option<PhyNumber>
    ensures { MatchOption result (some_free free ≡ false) (λ phy. (some_free free ≡ true) × (phy.number ≡ lowest_in free)) }
{
    if some_free(free) {
        return Some(PhyNumber {
            number: lowest_in(free),
        });
    }
    None
}

// The mask once a phy was free or was not, and now is or is not.
#[tactic(auto, unfolding(crate::specs::Stages::free_after))]
pub(crate) fn free_after(free: u64, phy: PhyNumber, was: bool, is: bool) -> u64
    ensures { result ≡ free_after free phy.number was is }
{
    if was == is {
        return free;
    }
    free ^ phy.bit()
}
