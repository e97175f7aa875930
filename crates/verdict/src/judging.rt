// The judgement on a certificate record.
ghost use Rattle.std.specs.Prelude.{◌≡◌, ◌≢◌, ℕ, ◌+◌, ◌<◌, Ok, MatchOption, pos, slice_index_or};
ghost use Rattle.polymatroid.specs.Sets.{alone};
ghost use Rattle.record.specs.declared.faults.Reason.TheVariants.{SumDiffers};
ghost use Rattle.record.specs.Faults.{outside};
ghost use Rattle.record.specs.Reading.{tried};
ghost use Rattle.access.specs.View.{participants_of, qualified_in};
ghost use Rattle.certificate.specs.Format.{total_of};
ghost use Rattle.certificate.specs.Judge.{agree_at, claimed};
ghost use Rattle.certificate.specs.Judge.{judge as judgement};
ghost use Rattle.certificate.specs.Theorems.{TakenExactly, TrustedBound};
ghost use Rattle.verdict.specs.Sums.{settled};

use crate::head::Head;
use crate::heads::{HeadBytes, head_length};
use crate::sums::add_lines;
use access::AccessStructure;
use record::{Reason, RecordFault};

impl Head {
    // The weight total.
    pub(crate) fn total(&self) -> u32
        ensures { result ≡ total_of self.now.header }
    {
        let participants = usize::from(self.header.participants);
        self.header.weights[..participants].iter().sum()
    }

    // How many participants stand before the one who is all of the set, if one is.
    fn alone_in(&self, set: u8) -> Option<u8>
        ensures { MatchOption result ((i : ℕ) → i < self.now.header.participants → set ≢ alone (i + 1)) (λ i. (i < self.now.header.participants) × (set ≡ alone (i + 1))) }
    {
        (0..self.header.participants).find(|i| u32::from(set) == 1u32 << (u32::from(*i) + 1))
    }

    // The claim's coefficient at a set.
    fn claim_at(&self, set: u8) -> i64
        ensures { result ≡ claimed self.now.header set }
    {
        match self.alone_in(set) {
            Some(i) => i64::from(self.header.weights[usize::from(i)]),
            None if set == 1 => -i64::from(self.header.count),
            None => 0,
        }
    }

    // Whether the table is the claim at the set; the empty one does not count.
    fn agrees_at(&self, table: &[i64; 256], set: u8) -> bool
        ensures { result ≡ agree_at (λ s. slice_index_or table.now s (pos 0)) (claimed self.now.header) set }
    {
        set == 0 || table[usize::from(set)] == self.claim_at(set)
    }

    // Whether the table is the claim at every set of the ground set but the empty one.
    fn is_settled(&self, table: &[i64; 256]) -> bool
        ensures { result ≡ settled self.now.header table.now }
    {
        let sets = 1u16 << (u16::from(self.header.participants) + 1);
        (0..sets).all(|set| self.agrees_at(table, set as u8))
    }

    // Count and weight total, unless the table is not the claim.
    fn conclude(&self, table: &[i64; 256]) -> Result<(u32, u32), RecordFault>
        ensures { result ≡ tried (settled self.now.header table.now) (outside SumDiffers) (Ok (self.now.header.count, total_of self.now.header)) }
    {
        if !self.is_settled(table) {
            return Err(Reason::SumDiffers.into());
        }
        Ok((self.header.count, self.total()))
    }
}

// Count and weight total of a right certificate, or why it is refused. A certificate is taken exactly when it is right, and
// then it binds every polymatroid that realises the access structure.
pub fn judge(structure: &AccessStructure, bytes: &[u8]) -> Result<(u32, u32), RecordFault>
    ensures value { result ≡ judgement (participants_of structure.now) (qualified_in structure.now) bytes.now }
    ensures taken { (count total : ℕ) → TakenExactly (participants_of structure.now) (qualified_in structure.now) bytes.now count total }
    ensures binds { (count total : ℕ) → result ≡ Ok (count, total) → TrustedBound (participants_of structure.now) (qualified_in structure.now) count total }
{
    let head = HeadBytes { structure, bytes }.head()?;
    let table = add_lines(
        structure,
        head.header.lines,
        &bytes[head_length(structure)..],
    )?;
    head.conclude(&table)
}
