// A set in one word: member k is the digit k. What the kinds of sets share; no other crate can name it.
ghost use Rattle.std.specs.Prelude.{◌≡◌, ◌≤◌, min};
ghost use Rattle.sets.specs.Bits as spec;

// The members that a word can hold are those below SIZE.
pub(crate) const SIZE: usize = 64;

// All numbers below n that a word holds.
pub(crate) fn below(n: usize) -> u64
    ensures { result ≡ spec.all_below (min n 64) }
{
    if n < SIZE { (1 << n) - 1 } else { u64::MAX }
}

// The set and k; the set as it is where no word holds k.
pub(crate) fn put(w: u64, k: usize) -> u64
    ensures { result ≡ spec.put 64 w k }
{
    if k < SIZE { w | (1 << k) } else { w }
}

// The set less k.
pub(crate) fn without(w: u64, k: usize) -> u64
    ensures { result ≡ spec.without w k }
{
    if k < SIZE { w ^ (w & (1 << k)) } else { w }
}

// Is k a member?
pub(crate) fn has(w: u64, k: usize) -> bool
    ensures { result ≡ spec.has w k }
{
    k < SIZE && w >> k & 1 == 1
}

// How many members there are.
pub(crate) fn size(w: u64) -> usize
    ensures { (result ≡ spec.size w) × (result ≤ 64) }
{
    w.count_ones() as usize
}

// The least member that is at least from, or SIZE where there is none.
pub(crate) fn next(w: u64, from: usize) -> usize
    ensures { spec.IsNext 64 w from result }
{
    if SIZE <= from {
        return SIZE;
    }
    let rest = w >> from;
    if rest == 0 {
        SIZE
    } else {
        from + rest.trailing_zeros() as usize
    }
}
