// The lower bound that an access structure and a certificate prove, both as bytes.
ghost use Rattle.std.specs.Prelude.{◌≡◌, ℕ, Ok};
ghost use Rattle.verdict.specs.Bounds.{lower_bound_in, ProvedExactly, Bounds};

use crate::judging::judge;
use access::read_structure;
use record::Refusal;

// Count and weight total of the bound, or why there is none; a fault of the access structure comes first. There is a bound
// exactly where the bytes are the records of an access structure and of a right certificate for it, and the bound binds
// every polymatroid that realises the access structure. A bound is a pair of numbers wherever it goes: fractions are
// tuples in this project.
pub fn lower_bound(structure: &[u8], certificate: &[u8]) -> Result<(u32, u32), Refusal>
    ensures value { result ≡ lower_bound_in structure.now certificate.now }
    ensures exactly { (count total : ℕ) → ProvedExactly structure.now certificate.now count total }
    ensures binds { (count total : ℕ) → result ≡ Ok (count, total) → Bounds structure.now count total }
{
    let read = read_structure(structure)?;
    Ok(judge(&read, certificate)?)
}
