// What the kinds of sets share: each stands for a number through one word, and member k is the digit k.
ghost use Rattle.std.specs.Prelude.{◌≡◌, ◌≤◌, ℕ};
ghost use Rattle.std.specs.Int.Bits.{bit_or, bit_xor};
ghost use Rattle.sets.specs.Bits as spec;

use super::word;

pub trait WordSet: Copy {
    // The set as a number.
    ghost bits: { Self → ℕ };

    // Its word.
    fn word(self) -> u64
        ensures { result ≡ bits self };

    // The set of this word.
    fn of_word(word: u64) -> Self
        ensures { bits result ≡ word };

    // The set and k; the set as it is where k is above LAST.
    fn with(self, k: usize) -> Self
        ensures { bits result ≡ spec.put 64 (bits self) k }
    {
        Self::of_word(word::put(self.word(), k))
    }

    // The set less k.
    fn without(self, k: usize) -> Self
        ensures { bits result ≡ spec.without (bits self) k }
    {
        Self::of_word(word::without(self.word(), k))
    }

    // What is in one of the two sets and not in both.
    fn sum(self, other: Self) -> Self
        ensures { bits result ≡ bit_xor (bits self) (bits other) }
    {
        Self::of_word(self.word() ^ other.word())
    }

    // What is in one of the two sets or in both.
    fn union(self, other: Self) -> Self
        ensures { bits result ≡ bit_or (bits self) (bits other) }
    {
        Self::of_word(self.word() | other.word())
    }

    // Have the two sets a member in common?
    fn meets(self, other: Self) -> bool
        ensures { result ≡ spec.meet (bits self) (bits other) }
    {
        self.word() & other.word() != 0
    }

    // Is k a member?
    fn has(self, k: usize) -> bool
        ensures { result ≡ spec.has (bits self) k }
    {
        word::has(self.word(), k)
    }

    // How many members there are.
    fn size(self) -> usize
        ensures { (result ≡ spec.size (bits self)) × (result ≤ 64) }
    {
        word::size(self.word())
    }

    // The least member that is at least from, or LAST + 1 where there is none.
    fn next(self, from: usize) -> usize
        ensures { spec.IsNext 64 (bits self) from result }
    {
        word::next(self.word(), from)
    }
}
