// The table of the qualified coalitions.
ghost use Rattle.std.specs.Prelude.{◌≡◌, ℕ, ◌*◌, ◌<◌, ◌≤◌, false, not, length, Decides, slice_index_or};
ghost use Rattle.std.specs.List.{list_all, range_with_len};
ghost use Rattle.polymatroid.specs.Sets.{Coalition};
ghost use Rattle.polymatroid.specs.Realising.{IsAccessStructure};
ghost use Rattle.access.specs.Table.{contains_one, table_of, smaller_by, minimal_by, MinimalIn};
ghost use Rattle.access.specs.Format.{LawfulSets};
ghost use Rattle.access.specs.View.{participants_of, qualified_in};

use crate::sets::{is_properly_within, is_within};
use crate::structure::AccessStructure;
use std::array;

// Whether one of the sets lies within `a`. By a slice pattern, one test of the length a set: an iterator's `any` makes two, and
// each reading of a record asks this of 128 coalitions.
fn contains_one(sets: &[u8], a: u8) -> bool
    ensures { result ≡ contains_one sets.now a }
{
    match sets {
        [] => false,
        [set, others @ ..] => is_within(*set, a) || contains_one(others, a),
    }
}

// Of each coalition whether it contains one of the sets: the one with the code 2 k at k.
fn table_of(sets: &[u8]) -> [bool; 128]
    ensures sized { length result ≡ 128 }
    ensures each { (k : ℕ) → k < 128 → slice_index_or result k false ≡ contains_one sets.now (2 * k) }
{
    array::from_fn(|k| contains_one(sets, 2 * k as u8))
}

impl AccessStructure {
    // The access structure with these minimal qualified sets.
    pub(crate) fn listing(participants: u8, sets: &[u8]) -> AccessStructure
        requires { LawfulSets participants sets.now }
        ensures participants { result.participants ≡ participants }
        ensures table { result.qualified ≡ table_of sets.now }
    {
        AccessStructure {
            participants,
            qualified: table_of(sets),
        }
    }

    pub fn participants(&self) -> u8
        ensures value { result ≡ participants_of self.now }
        ensures some { 1 ≤ result }
        ensures few { result ≤ 7 }
    {
        self.participants
    }

    // Whether the participants of the set can recover the secret; the secret's own bit is not looked at.
    pub fn is_qualified(&self, set: u8) -> bool
        ensures value { result ≡ qualified_in self.now set }
        ensures lawful { IsAccessStructure (participants_of self.now) (qualified_in self.now) }
    {
        self.qualified[usize::from(set / 2)]
    }

    // Whether the coalition with the code 2 k is another one within the set, and qualified.
    fn is_smaller(&self, k: u8, set: u8) -> bool
        requires { k < 128 }
        ensures { result ≡ smaller_by self.now.qualified set k }
    {
        is_properly_within(2 * k, set) && self.is_qualified(2 * k)
    }

    // Whether no other coalition within the set is qualified.
    fn is_least(&self, set: u8) -> bool
        ensures { result ≡ list_all (λ k. not (smaller_by self.now.qualified set k)) (range_with_len 0 128) }
    {
        (0..128).all(|k| !self.is_smaller(k, set))
    }

    // Whether the coalition is qualified and no other coalition within it is.
    pub fn is_minimal(&self, set: u8) -> bool
        ensures value { result ≡ minimal_by self.now.qualified set }
        ensures minimal { Coalition (participants_of self.now) set → Decides result (MinimalIn (participants_of self.now) (qualified_in self.now) set) }
    {
        self.is_qualified(set) && self.is_least(set)
    }
}
