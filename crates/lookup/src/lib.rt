// The size lookup: of two lent lists of sets, the sets in a row that have a given number of bonds. The answer is a part of one of the two
// lists. It takes lists of any length, and every size.
#![tactic(auto)]

ghost use Rattle.std.specs.Prelude.{◌≡◌, ◌+◌, ◌≤◌, ◌<◌, length, get_or, drop};
ghost use Rattle.sets.specs.Bits as bits;
ghost use Rattle.sets.specs.Lists.{sets_in};
ghost use Rattle.lookup.specs.Lookup as spec;

use sets::list::sets_in;
use sets::{BondSet, WORDS, WordSet};

// How many bonds the set at place i has.
fn bonds_at(list: &[u64], i: usize) -> u64
    requires { i < length (sets_in list.now) }
    ensures { result ≡ bits.size (get_or (sets_in list.now) i 0) }
{
    BondSet::at(list, i).size() as u64
}

// Where the first set of that size stands; at the end where there is none.
fn run_start(list: &[u64], size: u64) -> usize
    ensures { result ≡ spec.start size (sets_in list.now) }
{
    let n = sets_in(list);
    (0..n).find(|&i| bonds_at(list, i) == size).unwrap_or(n)
}

// Where the sets from `start` on stop having that size.
fn run_end(list: &[u64], start: usize, size: u64) -> usize
    requires { start ≤ length (sets_in list.now) }
    ensures { result ≡ start + spec.run size (drop start (sets_in list.now)) }
{
    let n = sets_in(list);
    (start..n).find(|&i| bonds_at(list, i) != size).unwrap_or(n)
}

// The first sets in a row of one list that have that size, up to the next set of another; no words where no set has it.
fn found<'a>(list: &'a [u64], size: u64) -> &'a [u64]
    ensures { spec.lent result ≡ spec.found size (spec.lent list.entry) }
{
    let start = run_start(list, size);
    let end = run_end(list, start, size);
    &list[start * WORDS..end * WORDS]
}

// What is found in the first list, or, where no set there has that size, in the second. Where none of the second has it either, no words, at
// the place where the first list begins.
pub fn of_size<'a>(first: &'a [u64], second: &'a [u64], size: u64) -> &'a [u64]
    ensures part { spec.lent result ≡ spec.of_size size (spec.lent first.entry) (spec.lent second.entry) }
    ensures read { (first.exit.now ≡ first.entry.now) × (second.exit.now ≡ second.entry.now) }
{
    let in_first = found(first, size);
    if !in_first.is_empty() {
        return in_first;
    }
    let in_second = found(second, size);
    if !in_second.is_empty() {
        return in_second;
    }
    &first[..0]
}
