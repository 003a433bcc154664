// The bytes of a label, from its values. No table is known here.
#![tactic(auto)]

mod histogram;
mod text;

pub use text::write_label;
