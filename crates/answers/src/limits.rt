// The limits of a table, and how long lists are that hold a set for each bond or for each atom.
use sets::WORDS;

// The most atoms that a table has.
pub const MAX_ATOMS: usize = 64;

// The most bonds that a table has.
pub const MAX_BONDS: usize = 64;

// The sizes that a set of bonds can have are those below SIZES.
pub const SIZES: usize = MAX_BONDS + 1;

// The most basis rings that an assembly may have where all rings are needed.
pub const MAX_ASSEMBLY: usize = 10;

// The words of a list that has a set for each bond: no table has more basis rings.
pub const BASIS_WORDS: usize = MAX_BONDS * WORDS;

// The words of a list that has a set for each atom.
pub const ATOM_WORDS: usize = MAX_ATOMS * WORDS;
