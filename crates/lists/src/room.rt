// How long the longest lists are in which all rings are worked out.
use sets::WORDS;

// No table has more rings: ten basis rings have 1023 sums that are not empty, fewer basis rings have fewer for each, and a table has at
// most 64.
const MOST: usize = 6547;

// Their length in words.
pub(crate) const MOST_WORDS: usize = MOST * WORDS;
