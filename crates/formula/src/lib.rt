// The rank formulas of the kinds of models, over the numbers that a record stores.
#![tactic(auto)]

ghost use Rattle.formula.specs.Theorems.{VectorsPolymatroid, GraphsPolymatroid, ThresholdsPolymatroid};

// Each kind's rank function is a polymatroid.
pub fn formulas_are_polymatroids()
    ensures vectors { VectorsPolymatroid }
    ensures graphs { GraphsPolymatroid }
    ensures thresholds { ThresholdsPolymatroid }
{}
