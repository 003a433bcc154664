// Sets of bonds and of basis rings, two kinds kept apart: no function takes one for the other. A member is a number up to LAST; no other
// number is one: it leaves a set as it is. A list of sets of bonds is a flat list of words, read and written at a place by `at` and `put_at`.
#![tactic(auto)]

mod bond;
pub mod list;
mod ring;
mod rising;
mod word;
mod word_set;

pub use bond::BondSet;
pub use list::WORDS;
pub use ring::RingSet;
pub use rising::Rising;
pub use word_set::WordSet;
