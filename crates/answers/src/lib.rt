// What every step above shares: the answer and the refusals, the limits of a table, and sets written over a lent list.
#![tactic(auto)]

mod answer;
mod limits;
mod refusal;
mod write;

pub use answer::Answer;
pub use limits::{ATOM_WORDS, BASIS_WORDS, MAX_ASSEMBLY, MAX_ATOMS, MAX_BONDS, SIZES};
pub use refusal::Refusal;
pub use write::write_sets;
