// The smallest basis by elimination: the rings are gone through in order, and each is taken of which something is left after the sets
// kept are summed with it. What is left is kept, at its lowest bond.
#![tactic(auto)]

ghost use Rattle.std.specs.Prelude.{◌<◌};
ghost use Rattle.sets.specs.Bond.{bits, room};
ghost use Rattle.sets.specs.Lists.{sets_in};
ghost use Rattle.spans.specs.Elimination.{Rows, Remainder};
ghost use Rattle.choosing.specs.Elimination.{Eliminated, Stepped, Choosable, Selected};

use answers::BASIS_WORDS;
use sets::list::sets_in;
use sets::{BondSet, WordSet};

// What is left of a ring when the set kept at its lowest bond is summed with it, as long as there is one.
fn left_of(kept: &[u64; BASIS_WORDS], ring: BondSet) -> BondSet
    requires { Rows (sets_in kept.now) }
    ensures { Remainder (sets_in kept.now) (bits ring) (bits result) }
{
    let mut rest = ring;
    while !rest.is_empty() {
        let other = BondSet::at(kept, rest.next(0));
        if other.is_empty() {
            return rest;
        }
        rest = rest.sum(other);
    }
    rest
}

// A ring is taken where something is left of it.
fn take_new(kept: &mut [u64; BASIS_WORDS], taken: &mut [u64], count: usize, ring: BondSet) -> usize
    requires { (Eliminated (sets_in kept.old) (sets_in taken.old) count) × (count < room) }
    ensures { Stepped (sets_in taken.old) count (bits ring) (sets_in kept.new) (sets_in taken.new) result }
{
    let rest = left_of(kept, ring);
    if rest.is_empty() {
        return count;
    }
    rest.put_at(kept, rest.next(0));
    ring.put_at(taken, count);
    count + 1
}

// What is taken of the sets of a list, which are sums of as many basis rings as are wanted: when so many are taken, the rest are sums of
// them.
pub fn smallest_of(found: &[u64], want: usize, taken: &mut [u64]) -> usize
    requires { Choosable (sets_in found.now) want (sets_in taken.old) }
    ensures { Selected (sets_in found.now) (sets_in taken.old) (sets_in taken.new) result }
{
    let mut kept = [0u64; BASIS_WORDS];
    let mut count: usize = 0;
    for i in 0..sets_in(found) {
        if count == want {
            return count;
        }
        count = take_new(&mut kept, taken, count, BondSet::at(found, i));
    }
    count
}
