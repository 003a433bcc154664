// Gibbs' combination of the basis rings of an assembly, as 000 has it. The basis rings are taken in turn, and each is summed with the sums
// of those before it, the old sets: this is its group. A sum of the group is a ring where no ring found in the groups before lies inside
// it, since of two even sets that make up a sum one has not the closure bond of its basis ring, and in that one lies such a ring.
#![tactic(auto)]

ghost use Rattle.std.specs.Prelude.{◌≡◌, [], ◌∷◌, ◌+◌, ◌^◌, ◌≤◌, length};
ghost use Rattle.sets.specs.Bits as set;
ghost use Rattle.sets.specs.Bond.{bits};
ghost use Rattle.sets.specs.Ring as superset;
ghost use Rattle.sets.specs.Lists.{sets_in};
ghost use Rattle.definitions.specs.Search.{picked};
ghost use Rattle.lent.specs.Appended.{Room, Appended};
ghost use Rattle.combining.specs.Gibbs.{clear?, rings_among, combined, Doubled};

use answers::BASIS_WORDS;
use sets::list::sets_in;
use sets::{BondSet, RingSet, WORDS, WordSet};

// The old sets are followed by the group of a basis ring.
fn double(sums: &mut [u64], half: usize, ring: BondSet)
    requires { half + half ≤ length (sets_in sums.old) }
    ensures long { length sums.new ≡ length sums.old }
    ensures sums { Doubled (sets_in sums.old) half (bits ring) (sets_in sums.new) }
{
    for j in 0..half {
        ring.sum(BondSet::at(sums, j)).put_at(sums, half + j);
    }
}

// Does none of these rings lie inside a sum? This is most of a cage's time, and the time goes into branches: two rings are held against the
// sum in a turn.
fn is_ring(rings: &[u64], sum: BondSet) -> bool
    ensures { result ≡ clear? (sets_in rings.now) (bits sum) }
{
    let pairs = rings.chunks_exact(2 * WORDS);
    let last = pairs.remainder();
    for pair in pairs {
        let one = BondSet::at(pair, 0).inside(sum);
        let next = BondSet::at(pair, 1).inside(sum);
        if one | next {
            return false;
        }
    }
    if sets_in(last) > 0 {
        return !BondSet::at(last, 0).inside(sum);
    }
    true
}

// The rings of a group, which the rings found before it tell, are put from the start of a list on. Gives how many there are.
fn add_group(group: &[u64], rings: &[u64], out: &mut [u64]) -> usize
    requires { Room (rings_among (sets_in rings.now) (sets_in group.now)) (sets_in out.old) 0 }
    ensures long { length out.new ≡ length out.old }
    ensures added { Appended (sets_in out.old) 0 (rings_among (sets_in rings.now) (sets_in group.now)) (sets_in out.new) result }
{
    let mut n: usize = 0;
    for j in 0..sets_in(group) {
        let sum = BondSet::at(group, j);
        if is_ring(rings, sum) {
            sum.put_at(out, n);
            n += 1;
        }
    }
    n
}

// The rings of an assembly, given by the places of its basis rings, follow the rings found. Its sums stand in a list of their own.
pub fn add_assembly(
    rings: &[u64; BASIS_WORDS],
    members: RingSet,
    sums: &mut [u64],
    found: &mut [u64],
    n: usize,
) -> usize
    requires { (2 ^ set.size (superset.bits members) ≤ length (sets_in sums.old)) × (Room (combined (picked (sets_in rings.now) (superset.bits members))) (sets_in found.old) n) }
    ensures sums { length sums.new ≡ length sums.old }
    ensures found { length found.new ≡ length found.old }
    ensures added { Appended (sets_in found.old) n (combined (picked (sets_in rings.now) (superset.bits members))) (sets_in found.new) result }
{
    BondSet::EMPTY.put_at(sums, 0);
    let mut half: usize = 1;
    let mut count = n;
    for i in members {
        double(sums, half, BondSet::at(rings, i));
        let group = &sums[half * WORDS..(half + half) * WORDS];
        let (before, after) = found.split_at_mut(count * WORDS);
        count += add_group(group, &before[n * WORDS..], after);
        half = half + half;
    }
    count
}
