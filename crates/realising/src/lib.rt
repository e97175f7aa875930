// Realising an access structure as a test that computes, and the largest share.
#![tactic(auto)]

ghost use Rattle.realising.specs.Realised.{RealisingDecided, LargestFound};

// The test over all coalitions decides whether a rank function realises an access structure, and the largest share is
// what its name says.
pub fn realising_is_decided()
    ensures decided { RealisingDecided }
    ensures largest { LargestFound }
{}
