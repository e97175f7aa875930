// Ranks of closure tests, such as spans of vectors and connectedness in graphs.
#![tactic(auto)]

ghost use Rattle.matroid.specs.Theorems.{RanksLawful, RanksPolymatroid};

// What a closure test counts is the length of every independent list with the same closure; it depends on the closure
// alone, and what is added to more elements gains no more.
pub fn ranks_are_lawful<X>()
    ensures { RanksLawful X }
{}

// The rank of what the elements of a set hold is a polymatroid.
pub fn ranks_are_polymatroids<X>()
    ensures { RanksPolymatroid X }
{}
