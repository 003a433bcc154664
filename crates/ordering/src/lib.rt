// The order of rings, and how many sets have each size.
#![tactic(auto)]

mod order;
mod sizes;

pub use order::order_rings;
pub use sizes::count_sizes;
