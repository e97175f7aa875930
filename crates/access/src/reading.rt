// The record of an access structure.
ghost use Rattle.std.specs.Prelude.{◌≡◌, ℕ, List, Ok};
ghost use Rattle.record.specs.Reading.{and_then};
ghost use Rattle.access.specs.Format.{participants_in, sets_in, allowed, apart, antichain, listed_in, structure_in, LawfulSets, QualifiedExactly, MinimalExactly, ReadExactly};
ghost use Rattle.access.specs.View.{viewed, ComesOutAt};

use crate::sets::{are_comparable, is_coalition};
use crate::structure::AccessStructure;
use record::{Reason, RecordFault, need, need_mark};

const MARK: [u8; 2] = [0x53, 0x54];

// Whether each set is a coalition of the n participants, and none is empty.
fn are_allowed(n: u8, sets: &[u8]) -> bool
    ensures { result ≡ allowed n sets.now }
{
    sets.iter().all(|set| is_coalition(n, *set) && *set != 0)
}

// Whether the set is comparable with none of the others.
fn is_apart(set: u8, others: &[u8]) -> bool
    ensures { result ≡ apart set others.now }
{
    others.iter().all(|other| !are_comparable(set, *other))
}

// Whether no set contains or equals another.
fn is_antichain(sets: &[u8]) -> bool
    ensures { result ≡ antichain sets.now }
{
    match sets {
        [] => true,
        [set, others @ ..] => is_apart(*set, others) && is_antichain(others),
    }
}

// Whether the bytes are the record of an access structure, or why not.
fn check(bytes: &[u8]) -> Result<(), Reason>
    ensures { listed_in bytes.now ≡ and_then result (λ _. Ok (participants_in bytes.now, sets_in bytes.now)) }
{
    need_mark(bytes, MARK)?;
    need(bytes, 4)?;
    let n = bytes[2];
    let count = bytes[3];
    if !matches!(n, 1..=7) || !matches!(count, 1..=35) {
        return Err(Reason::OutOfRange);
    }
    let end = usize::from(count) + 4;
    need(bytes, end)?;
    if !are_allowed(n, &bytes[4..end]) {
        return Err(Reason::SetNotAllowed);
    }
    if !is_antichain(&bytes[4..end]) {
        return Err(Reason::NotAntichain);
    }
    if bytes.len() != end {
        return Err(Reason::LeftOver);
    }
    Ok(())
}

// The access structure that the bytes record, or why they record none.
pub fn read_structure(bytes: &[u8]) -> Result<AccessStructure, RecordFault>
    ensures value { viewed result ≡ structure_in bytes.now }
    ensures exactly { ComesOutAt bytes.now result }
{
    check(bytes)?;
    Ok(AccessStructure::listing(bytes[2], &bytes[4..]))
}

// A list of sets comes out of exactly one record, its own, and only if it is lawful.
pub fn records_read_exactly()
    ensures { (bytes : List ℕ) (n : ℕ) (sets : List ℕ) → ReadExactly bytes n sets }
{}

// Lawful sets are exactly the minimal coalitions of the access structure that they make.
pub fn listed_sets_are_minimal()
    ensures qualified { (n : ℕ) (sets : List ℕ) → LawfulSets n sets → QualifiedExactly n sets }
    ensures minimal { (n : ℕ) (sets : List ℕ) → LawfulSets n sets → MinimalExactly n sets }
{}
