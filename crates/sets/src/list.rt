// A list of sets as a flat list of words, WORDS of them for each set, low one first. Words at the end that are too few for a set are ignored.
ghost use Rattle.std.specs.Prelude.{◌≡◌, ◌<◌, min, length, get_or};
ghost use Rattle.sets.specs.Lists.{sets_in, Put};

// The words that a set takes.
pub const WORDS: usize = 1;

// How many sets a list has.
pub fn sets_in(list: &[u64]) -> usize
    ensures { result ≡ length (sets_in list.now) }
{
    list.len() / WORDS
}

// How many of the first count sets a list has.
pub fn sets_up_to(list: &[u64], count: usize) -> usize
    ensures { result ≡ min count (length (sets_in list.now)) }
{
    count.min(sets_in(list))
}

// The word of the set at place i.
pub(crate) fn read(list: &[u64], i: usize) -> u64
    requires { i < length (sets_in list.now) }
    ensures { result ≡ get_or (sets_in list.now) i 0 }
{
    list[i]
}

// Stores the word of a set at place i.
pub(crate) fn write(list: &mut [u64], i: usize, w: u64)
    requires { i < length (sets_in list.old) }
    ensures { Put list.old i w list.new }
{
    list[i] = w;
}
