// An assembly: its basis rings among those of a table.
ghost use Rattle.std.specs.Prelude.{◌≡◌, ◌<◌};
ghost use Rattle.sets.specs.Bond as bond;
ghost use Rattle.sets.specs.Ring as ring;
ghost use Rattle.definitions.specs.Search.{union_of};
ghost use Rattle.definitions.specs.Label.{pair_of};
ghost use Rattle.rings.specs.Tally.{own_basis};

use answers::BASIS_WORDS;
use sets::{BondSet, RingSet, WordSet};

// The first number of a pair counts so many times.
const FIRST: u64 = 256;

// The basis rings of a table, and the places of those that the assembly has.
#[derive(Clone, Copy)]
pub(crate) struct Assembly<'a> {
    pub rings: &'a [u64; BASIS_WORDS],
    pub members: RingSet,
}

impl Assembly<'_> {
    // Its bonds: the union of its basis rings.
    fn bonds(self) -> BondSet
        ensures { bond.bits result ≡ union_of (own_basis self.entry) }
    {
        let rings = self.rings;
        let mut union = BondSet::EMPTY;
        for i in self.members {
            union = union.union(BondSet::at(rings, i));
        }
        union
    }

    // Its pair as one number: how many basis rings, times 256, and how many bonds. Pairs rise as numbers.
    pub(crate) fn pair(self) -> u64
        ensures { result ≡ pair_of (own_basis self.entry) }
    {
        self.members.size() as u64 * FIRST + self.bonds().size() as u64
    }
}
