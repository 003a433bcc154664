// Numbers and tagged fields as bytes, high byte first, written by a writer.
#![tactic(auto)]

mod field;
mod number;

pub use field::{HEAD, Tag, put_head, put_number_field};
pub use number::{put_number, put_tagged};
