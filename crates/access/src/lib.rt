// Access structures: which coalitions of participants can recover the secret.
#![tactic(auto)]

mod reading;
mod sets;
mod structure;
mod tables;

pub use reading::{listed_sets_are_minimal, read_structure, records_read_exactly};
pub use sets::{are_comparable, in_ground, is_coalition, is_properly_within, is_within};
pub use structure::AccessStructure;
