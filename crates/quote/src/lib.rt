// The boundary to C: one judgement over two byte buffers.
#![tactic(auto)]

ghost use Rattle.std.specs.Prelude.{◌≡◌, ℕ};
ghost use Rattle.verdict.specs.Bounds.{Bounds};
ghost use Rattle.quote.specs.Answer.{answered, answer_to};

use record::Refusal;
use verdict::lower_bound;

// 0 for a bound, else the number of the refusal: C takes a number.
fn number_of(answer: Result<(u32, u32), Refusal>) -> u32
    ensures { result ≡ answered answer }
{
    answer.map_or_else(|refusal| refusal.reason.number(), |_| 0)
}

// 0 if the certificate proves a lower bound for the access structure, else the number of the refusal, the access
// structure's first. C passes a pointer and a length for each buffer.
#[unsafe(no_mangle)]
pub extern "C" fn quote_check(structure: &[u8], certificate: &[u8]) -> u32
    ensures value { result ≡ answer_to structure.now certificate.now }
    ensures binds { result ≡ 0 → (count : ℕ) × ((total : ℕ) × Bounds structure.now count total) }
{
    number_of(lower_bound(structure, certificate))
}
