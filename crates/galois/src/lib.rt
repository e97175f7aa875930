// The fields of prime order up to 13 and of order 4, 8 and 16, on codes, each with its laws.
#![tactic(auto)]

mod binary;
mod gf16;
mod inverses;
mod prime;

pub use binary::Binary;
pub use gf16::Gf16;
pub use prime::Prime;
