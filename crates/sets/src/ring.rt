// A set of basis rings (a superset in 000), in one word: basis ring k is the digit k.
ghost use Rattle.std.specs.Prelude.{◌≡◌, ◌≤◌, min};
ghost use Rattle.std.specs.Int.Bits.{bit_or, bit_xor};
ghost use Rattle.sets.specs.Bits as spec;
ghost use Rattle.sets.specs.Ring.{bits, room};
ghost use Rattle.sets.specs.Rising.{rising, left};

use super::rising::Rising;
use super::word;
use super::word_set::WordSet;

#[derive(Clone, Copy, Default)]
pub struct RingSet(pub u64);

impl RingSet {
    // The set with no ring.
    pub const EMPTY: RingSet = RingSet(0);

    // The largest ring number that a set can hold.
    pub const LAST: usize = word::SIZE - 1;

    // The set of the rings below n; of all up to LAST where n is above LAST.
    pub fn below(n: usize) -> RingSet
        ensures { bits result ≡ spec.all_below (min n room) }
    {
        RingSet(word::below(n))
    }

    // The set of ring k alone; the empty set where k is above LAST.
    pub fn only(k: usize) -> RingSet
        ensures { bits result ≡ spec.put room 0 k }
    {
        RingSet(word::put(0, k))
    }
}

impl WordSet for RingSet {
    ghost bits = { bits };

    fn word(self) -> u64 {
        self.0
    }

    fn of_word(word: u64) -> RingSet {
        RingSet(word)
    }
}

// The rings of the set, the least first.
impl IntoIterator for RingSet {
    type Item = usize;

    type IntoIter = Rising;

    ghost into_iter_gives = { λ s it. left it ≡ rising room (bits s) };

    fn into_iter(self) -> Rising {
        Rising(self.0)
    }
}
