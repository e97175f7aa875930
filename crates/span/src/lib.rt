// Spans and dimensions over any field, from the field's laws alone.
#![tactic(auto)]

ghost use Rattle.span.specs.Theorems.{SpanDecided, OneLength, LengthIsDimension, HasBasis, SpanDecides, OrderIsFree, SpanAddsNothing, DimensionsPolymatroid};

use field::Field;

// What holds of spans and dimensions over every field.
pub fn dimensions_are_lawful<F: Field>(f: &F)
    ensures decided { SpanDecided (F.ops f.now) }
    ensures exchange { OneLength (F.ops f.now) }
    ensures length { LengthIsDimension (F.ops f.now) }
    ensures basis { HasBasis (F.ops f.now) }
    ensures span { SpanDecides (F.ops f.now) }
    ensures order { OrderIsFree (F.ops f.now) }
    ensures added { SpanAddsNothing (F.ops f.now) }
    ensures polymatroid { DimensionsPolymatroid (F.ops f.now) }
{}
