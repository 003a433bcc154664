// The refusals of a connection table, an atom count and two bytes a bond, and what steps above take: the ends of its bonds, and for each atom
// the bonds that meet it.
#![tactic(auto)]

mod ends;
mod refusal;
mod rows;

pub use ends::{Ends, ends_of};
pub use refusal::accept;
pub use rows::rows_of;
