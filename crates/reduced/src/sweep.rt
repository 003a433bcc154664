// The sweeps over the sets of one assembly, in place in a list.
ghost use Rattle.std.specs.Prelude.{◌≡◌, cond, ◌+◌, ◌-◌, ◌<◌, length, ltb};
ghost use Rattle.sets.specs.Bits.{size};
ghost use Rattle.sets.specs.Bond.{bits};
ghost use Rattle.sets.specs.Lists.{sets_in};
ghost use Rattle.definitions.specs.Reduced as spec;
ghost use Rattle.reduced.specs.Change.{changed?};

use sets::list::sets_in;
use sets::{BondSet, WordSet};

// Is the one set smaller than the other? Sizes decide.
fn smaller(one: BondSet, other: BondSet) -> bool
    ensures { result ≡ ltb (size (bits one)) (size (bits other)) }
{
    one.size() < other.size()
}

// The one set where the test passes, and the other where not.
fn either(test: bool, one: BondSet, other: BondSet) -> BondSet
    ensures { bits result ≡ cond test (bits one) (bits other) }
{
    if test { one } else { other }
}

// The exchange at the pair (j, i), and whether it changes anything.
fn exchange(sets: &mut [u64], j: usize, i: usize) -> bool
    requires { (j < i) × (i < length (sets_in sets.old)) }
    ensures long { length sets.new ≡ length sets.old }
    ensures list { sets_in sets.new ≡ spec.exchange (sets_in sets.old) j i }
    ensures told { result ≡ changed? (sets_in sets.old) (sets_in sets.new) }
{
    let first = BondSet::at(sets, j);
    let second = BondSet::at(sets, i);
    let sum = first.sum(second);
    let swaps = smaller(sum, second);
    either(swaps, sum, second).put_at(sets, i);
    let left = either(swaps, second, sum);
    let puts = smaller(left, first);
    either(puts, left, first).put_at(sets, j);
    swaps | puts
}

// The pairs of set j with each set after it, and whether one changes anything.
fn along(sets: &mut [u64], j: usize) -> bool
    requires { j < length (sets_in sets.old) }
    ensures long { length sets.new ≡ length sets.old }
    ensures list { sets_in sets.new ≡ spec.along j (j + 1) (length (sets_in sets.old) - (j + 1)) (sets_in sets.old) }
    ensures told { result ≡ changed? (sets_in sets.old) (sets_in sets.new) }
{
    let mut changed = false;
    for i in j + 1..sets_in(sets) {
        changed = exchange(sets, j, i) | changed;
    }
    changed
}

// One sweep over all pairs, and whether it changes anything.
fn sweep(sets: &mut [u64]) -> bool
    ensures long { length sets.new ≡ length sets.old }
    ensures list { sets_in sets.new ≡ spec.sweep (sets_in sets.old) }
    ensures told { result ≡ changed? (sets_in sets.old) (sets_in sets.new) }
{
    let mut changed = false;
    for j in 0..sets_in(sets) {
        changed = along(sets, j) | changed;
    }
    changed
}

// Sweeps until one changes nothing.
pub(crate) fn sweep_until_still(sets: &mut [u64])
    ensures long { length sets.new ≡ length sets.old }
    ensures list { sets_in sets.new ≡ spec.reduced (sets_in sets.old) }
{
    while sweep(sets) {}
}
