// The assemblies that are found of a table.
ghost use Rattle.std.specs.Prelude.{◌≡◌, ℕ, ◌≤◌, length, map, get_or};
ghost use Rattle.sets.specs.Ring.{bits};

use answers::MAX_BONDS;
use sets::RingSet;
use std::ops::DerefSlice;
use std::slice;

// The assemblies in order, each as the set of its basis rings: the first count sets of a list, and empty sets after them. They are a slice to
// who reads them.
#[derive(Clone, Copy)]
pub struct Assemblies {
    pub members: [RingSet; MAX_BONDS],
    pub count: usize,
    ghost within: { count ≤ length members },
    ghost blank: { (a : ℕ) → count ≤ a → get_or (map bits members) a 0 ≡ 0 },
}

impl Assemblies {
    ghost use Rattle.std.specs.Prelude.{◌≡◌, [], ◌∷◌, ◌++◌, ◌+◌, ◌<◌};
    ghost use Rattle.definitions.specs.Table.{max_bonds};
    ghost use Rattle.basis.specs.Held.{held_sets, held_count};

    // No assembly yet.
    pub fn new() -> Assemblies
        ensures { held_sets result ≡ [] }
    {
        Assemblies {
            members: [RingSet::EMPTY; MAX_BONDS],
            count: 0,
        }
    }

    // One more, after the others.
    pub fn push(&mut self, members: RingSet)
        requires { held_count self.old < max_bonds }
        ensures items { held_sets self.new ≡ held_sets self.old ++ members ∷ [] }
        ensures count { held_count self.new ≡ held_count self.old + 1 }
    {
        self.members[self.count] = members;
        self.count += 1;
    }
}

impl DerefSlice for Assemblies {
    ghost use Rattle.std.specs.Prelude.{◌≡◌, ◌≤◌, length};
    ghost use Rattle.definitions.specs.Table.{max_bonds};
    ghost use Rattle.basis.specs.Held.{held_sets};

    type Elem = RingSet;

    ghost deref_gives = { λ s sets. (sets ≡ held_sets s) × (length sets ≤ max_bonds) };

    fn deref(&self) -> &[RingSet] {
        &self.members[..self.count]
    }
}

impl<'a> IntoIterator for &'a Assemblies {
    ghost use Rattle.std.specs.Prelude.{◌≡◌, ◌^◌, ◌<◌, length};
    ghost use Rattle.std.specs.Iterator.Runs.{EveryRun, ItemsMapTo};
    ghost use Rattle.std.specs.Slice.Iter.{iter_rest, iter_steps};
    ghost use Rattle.sets.specs.declared.ring.RingSet.{RingSet};
    ghost use Rattle.basis.specs.Held.{held_sets};

    type Item = &'a RingSet;

    type IntoIter = slice::Iter<'a, RingSet>;

    ghost into_iter_gives = { λ s it. (iter_rest it ≡ held_sets s.now) × (length (iter_rest it) < 2 ^ 64)
        × EveryRun (iter_steps {A = RingSet}) (λ p. ItemsMapTo p (λ x. x.now) (iter_rest p.from)) };

    fn into_iter(self) -> slice::Iter<'a, RingSet> {
        self.iter()
    }
}
