// Reading the head of a certificate record.
ghost use Rattle.std.specs.Prelude.{◌≡◌, ℕ, ◌+◌, ◌*◌, ◌<◌, slice_index};
ghost use Rattle.access.specs.View.{participants_of};
ghost use Rattle.record.specs.Faults.{outside};
ghost use Rattle.record.specs.Reading.{refused_as};
ghost use Rattle.certificate.specs.declared.header.Header.{Header as HeadOf};
ghost use Rattle.certificate.specs.Theorems.{HeadReadExactly};
ghost use Rattle.certificate.specs.Format.{header_in, header_of};
ghost use Rattle.verdict.specs.Heads.{shown};

use crate::head::Head;
use access::AccessStructure;
use certificate::Header;
use record::{Reason, RecordFault, four_at, need, need_mark, two_at};
use std::array;

const MARK: [u8; 2] = [0x43, 0x45];

// How many bytes the head takes.
pub(crate) fn head_length(structure: &AccessStructure) -> usize
    ensures { result ≡ 2 * participants_of structure.now + 9 }
{
    2 * usize::from(structure.participants()) + 9
}

// The bytes that should begin with a head for the access structure's participants.
#[derive(Clone, Copy)]
pub(crate) struct HeadBytes<'a> {
    pub structure: &'a AccessStructure,
    pub bytes: &'a [u8],
}

impl HeadBytes<'_> {
    // The weight of the participant with `i` others before it, or 0 beyond the participants.
    #[tactic(auto, using(crate::proofs::Weights::weight_here, crate::proofs::Weights::weight_beyond))]
    fn weight_at(&self, i: usize) -> u32
        ensures value { result ≡ slice_index (header_in (participants_of self.now.structure.now) self.now.bytes.now).weights i }
        ensures small { result < 65536 }
    {
        if i < usize::from(self.structure.participants()) {
            u32::from(two_at(self.bytes, 2 * i + 3))
        } else {
            0
        }
    }

    // The weights, and 0 beyond the participants.
    fn weights(&self) -> [u32; 7]
        ensures value { result ≡ (header_in (participants_of self.now.structure.now) self.now.bytes.now).weights }
        ensures small { (k : ℕ) → slice_index result k < 65536 }
    {
        array::from_fn(|i| self.weight_at(i))
    }

    // The fields.
    fn fields(&self) -> Head
        ensures { result.header ≡ header_in (participants_of self.now.structure.now) self.now.bytes.now }
    {
        let end = head_length(self.structure);
        Head {
            header: Header {
                participants: self.structure.participants(),
                weights: self.weights(),
                count: four_at(self.bytes, end - 6),
                lines: two_at(self.bytes, end - 2),
            },
        }
    }

    // The head, or why there is none.
    pub(crate) fn head(&self) -> Result<Head, Reason>
        ensures { shown result ≡ header_of (participants_of self.now.structure.now) self.now.bytes.now }
    {
        need_mark(self.bytes, MARK)?;
        need(self.bytes, 3)?;
        if !matches!(self.bytes[2], 1..=7) {
            return Err(Reason::OutOfRange);
        }
        if self.bytes[2] != self.structure.participants() {
            return Err(Reason::ParticipantsDiffer);
        }
        need(self.bytes, head_length(self.structure))?;
        let head = self.fields();
        if head.total() == 0 || head.header.count == 0 {
            return Err(Reason::OutOfRange);
        }
        if !matches!(head.header.lines, 1..=4096) {
            return Err(Reason::OutOfRange);
        }
        Ok(head)
    }
}

// The head of a certificate record for the access structure's participants, or why it has none: a head comes out exactly if the record begins with the bytes of that lawful head.
pub fn read_header(structure: &AccessStructure, bytes: &[u8]) -> Result<Header, RecordFault>
    ensures value { result ≡ refused_as outside (header_of (participants_of structure.now) bytes.now) }
    ensures exactly { (h : HeadOf) → HeadReadExactly (participants_of structure.now) bytes.now h }
{
    let head = HeadBytes { structure, bytes }.head()?;
    Ok(head.header)
}
