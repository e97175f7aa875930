// Polymatroids, access structures, and why a right certificate is a lower bound for every scheme.
#![tactic(auto)]

ghost use Rattle.polymatroid.specs.Inequality.{LinesHold};
ghost use Rattle.polymatroid.specs.Certificate.{Weighted, Claims, Sound};

mod inequality;

pub use inequality::{Inequality, Line};

// The theorem behind every lower bound: lawful lines that add up to the claim bind every polymatroid that realises the
// access structure, in the weighted sum of its shares and so in one of them.
pub fn certificates_bind()
    ensures lines { LinesHold }
    ensures weighted { Weighted }
    ensures claims { Claims }
    ensures largest { Sound }
{}
