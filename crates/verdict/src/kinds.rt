// The kinds of lines: what each asks of its multiplier and its sets, in the order in which it is tried.
ghost use Rattle.std.specs.Prelude.{◌≡◌, ◌&&◌};
ghost use Rattle.std.proofs.Common.{to_z};
ghost use Rattle.std.specs.Int.{w16};
ghost use Rattle.record.specs.Reading.{two, byte};
ghost use Rattle.access.specs.View.{participants_of, qualified_in};
ghost use Rattle.certificate.specs.Lines.{usable, positive, multiplier_limit, body};
ghost use Rattle.verdict.specs.Kinds.{of_kind, takes, has_place, is_lawful, inequality_of};

use access::{AccessStructure, are_comparable, in_ground, is_coalition, is_properly_within};
use polymatroid::{Inequality, Line};
use record::{Reason, byte_at, two_at};

// What a line's mark says. Not an `Inequality` at once: the last two kinds have no second set, and the record's has to be 0.
#[derive(Clone, Copy)]
pub(crate) enum Kind {
    Monotonicity,
    Submodularity,
    Correctness,
    Privacy,
}

// What stands behind the mark.
#[derive(Clone, Copy)]
struct Terms {
    multiplier: i16,
    first: u8,
    second: u8,
}

impl Terms {
    fn stored(rest: &[u8]) -> Terms
        ensures multiplier { result.multiplier ≡ to_z w16 (two rest.now 0) }
        ensures first { result.first ≡ byte rest.now 2 }
        ensures second { result.second ≡ byte rest.now 3 }
    {
        Terms {
            multiplier: two_at(rest, 0).cast_signed(),
            first: byte_at(rest, 2),
            second: byte_at(rest, 3),
        }
    }
}

// Neither 0 nor -32,768.
fn is_usable(multiplier: i16) -> bool
    ensures { result ≡ usable multiplier_limit multiplier }
{
    multiplier != 0 && multiplier != i16::MIN
}

// The same, and more than 0.
fn is_positive(multiplier: i16) -> bool
    ensures { result ≡ (usable multiplier_limit multiplier && positive multiplier) }
{
    is_usable(multiplier) && multiplier > 0
}

impl Kind {
    // Whether a line of this kind may have the multiplier.
    fn takes(self, multiplier: i16) -> bool
        ensures { result ≡ takes self multiplier }
    {
        match self {
            Kind::Monotonicity | Kind::Submodularity => is_positive(multiplier),
            Kind::Correctness | Kind::Privacy => is_usable(multiplier),
        }
    }

    // Whether the sets are two of the ground set, or a coalition and no second set.
    fn has_place(self, n: u8, terms: Terms) -> bool
        ensures { result ≡ has_place n self terms.first terms.second }
    {
        match self {
            Kind::Monotonicity | Kind::Submodularity => in_ground(n, terms.first)
                && in_ground(n, terms.second),
            Kind::Correctness | Kind::Privacy => is_coalition(n, terms.first) && terms.second == 0,
        }
    }

    // Whether a line of this kind is lawful at these sets.
    fn is_lawful(self, structure: &AccessStructure, terms: Terms) -> bool
        ensures { result ≡ is_lawful (qualified_in structure.now) self terms.first terms.second }
    {
        match self {
            Kind::Monotonicity => is_properly_within(terms.first, terms.second),
            Kind::Submodularity => !are_comparable(terms.first, terms.second),
            Kind::Correctness => structure.is_qualified(terms.first),
            Kind::Privacy => !structure.is_qualified(terms.first),
        }
    }

    // What a line of this kind says of the sets.
    fn inequality(self, terms: Terms) -> Inequality
        ensures { result ≡ inequality_of self terms.first terms.second }
    {
        match self {
            Kind::Monotonicity => Inequality::Monotonicity(terms.first, terms.second),
            Kind::Submodularity => Inequality::Submodularity(terms.first, terms.second),
            Kind::Correctness => Inequality::Correctness(terms.first),
            Kind::Privacy => Inequality::Privacy(terms.first),
        }
    }

    // A line of this kind by what stands behind its mark, or why there is none. The access structure is no part of `Terms`: a line
    // does not hold it.
    pub(crate) fn read(self, structure: &AccessStructure, rest: &[u8]) -> Result<Line, Reason>
        ensures { result ≡ body (of_kind (participants_of structure.now) (qualified_in structure.now) self) rest.now }
    {
        let terms = Terms::stored(rest);
        if !self.takes(terms.multiplier) {
            return Err(Reason::OutOfRange);
        }
        if !self.has_place(structure.participants(), terms) {
            return Err(Reason::SetNotAllowed);
        }
        if !self.is_lawful(structure, terms) {
            return Err(Reason::Unlawful);
        }
        Ok(Line {
            multiplier: i32::from(terms.multiplier),
            inequality: self.inequality(terms),
        })
    }
}
