// Refusals, and the fields of a record of bytes.
#![tactic(auto)]

mod faults;
mod fields;
mod refusing;

pub use faults::{LineFault, Reason, RecordFault, Refusal};
pub use fields::{byte_at, four_at, is_marked, need, need_mark, two_at};
