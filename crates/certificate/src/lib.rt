// The certificate record: what its bytes mean, when it is taken, and what is then true of every scheme.
#![tactic(auto)]

ghost use Rattle.certificate.specs.Theorems.{Trusted, HeadsReadExactly, ReadsExactly, TakesExactly};

mod header;

pub use header::Header;

// A certificate comes out of exactly its own record, and a head of exactly the records that begin with it.
pub fn records_read_exactly()
    ensures certificates { ReadsExactly }
    ensures heads { HeadsReadExactly }
{}

// A certificate is taken exactly when its lines are lawful and add up to its claim, and then it binds every polymatroid
// that realises the access structure.
pub fn judgements_bind()
    ensures taken { TakesExactly }
    ensures trusted { Trusted }
{}
