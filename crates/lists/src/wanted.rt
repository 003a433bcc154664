// What is wanted of a table's rings: all of them, or the smallest basis that is taken of them.
ghost use Rattle.std.specs.Prelude.{◌≡◌, [], ◌≤◌, List, ℕ, ⊤};
ghost use Rattle.sets.specs.Lists.{sets_in};
ghost use Rattle.definitions.specs.Table.{max_bonds};
ghost use Rattle.definitions.specs.Smallest.{taking};
ghost use Rattle.definitions.specs.Answer.{written_sets};
ghost use Rattle.answers.specs.Told.{told};
ghost use Rattle.choosing.specs.Elimination.{Spanned};

use answers::{BASIS_WORDS, Refusal, write_sets};
use choosing::smallest_of;
use sets::list::sets_in;

// What can be chosen of rings in order, and written.
pub(crate) trait Wanted {
    // which rings, in order, it can be chosen from
    ghost can_choose: { Self → List ℕ → Type 0 };

    // what it is of them
    ghost chosen: { Self → List ℕ → List ℕ };

    // Writes it, of a list of rings.
    fn write(self, rings: &[u64], out: &mut [u64]) -> Result<usize, Refusal>
        requires { can_choose self (sets_in rings.now) }
        ensures { told result out.new ≡ written_sets 0 (chosen self (sets_in rings.now)) out.old };
}

// All of them.
#[derive(Clone, Copy)]
pub(crate) struct AllRings;

impl Wanted for AllRings {
    ghost can_choose = { λ _ _. ⊤ };

    ghost chosen = { λ _ rings. rings };

    fn write(self, rings: &[u64], out: &mut [u64]) -> Result<usize, Refusal> {
        write_sets(rings, sets_in(rings), out)
    }
}

// The smallest basis, of as many rings as there are basis rings.
#[derive(Clone, Copy)]
pub(crate) struct SmallestBasis {
    pub count: usize,
}

impl Wanted for SmallestBasis {
    ghost can_choose = { λ wanted rings. (wanted.count ≤ max_bonds) × Spanned wanted.count rings };

    ghost chosen = { λ _ rings. taking [] rings };

    fn write(self, rings: &[u64], out: &mut [u64]) -> Result<usize, Refusal> {
        let mut taken = [0u64; BASIS_WORDS];
        let chosen = smallest_of(rings, self.count, &mut taken);
        write_sets(&taken, chosen, out)
    }
}
