// Judging certificate records: the code that reads them and adds their lines up.
#![tactic(auto)]

mod bounds;
mod head;
mod heads;
mod judging;
mod kinds;
mod lines;
mod sums;

pub use bounds::lower_bound;
pub use heads::read_header;
pub use judging::judge;
