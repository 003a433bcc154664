// What the programs over the library share: their input, the records of a stream, and text that a writer writes.
#![tactic(auto)]

mod input;
mod record;
mod text;

pub use input::read_input;
pub use record::{RECORD_HEAD, Record, atoms_of, first_record, record_bytes};
pub use text::{put_decimal, put_hex, put_spaced};
