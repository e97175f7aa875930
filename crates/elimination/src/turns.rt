// Elimination, column by column from the left.
ghost use Rattle.std.specs.Prelude.{◌≡◌, ℕ, ◌+◌, ◌<◌, ◌≤◌, ◌∷◌, length, ◌≢◌, slice_index};
ghost use Rattle.std.specs.List.{All, SwappedAt};
ghost use Rattle.std.specs.List.Sorted.{IsPermutation};
ghost use Rattle.field.specs.Laws.{code};
ghost use Rattle.span.specs.Dimension.{dimension};
ghost use Rattle.elimination.specs.Rows.{vectors, ZeroLeft, SpanKept};

use crate::steps::{clear, scale, seek};
use crate::{Row, WIDTH};
use field::Field;

// The first row and row p change places.
fn exchange(rows: &mut [Row], p: usize)
    requires { p < length rows.old }
    ensures places { SwappedAt rows.old rows.new 0 p }
    ensures permutation { IsPermutation rows.old rows.new }
{
    rows.swap(0, p);
}

// One turn at column c: divides the pivot's row by its code there, and makes the rows below it 0 there. That takes one
// from the dimension, over any columns up to d that c is among.
fn turn<F: Field>(f: &F, pivot: &mut Row, below: &mut [Row], c: usize, d: usize)
    requires column { c < d }
    requires narrow { d ≤ WIDTH }
    requires real { code (F.ops f.now).order (slice_index pivot.old c) ≢ 0 }
    requires left { All (ZeroLeft (F.ops f.now) c) (pivot.old ∷ below.old) }
    ensures falls { (e : ℕ) → c < e → e ≤ d → dimension (F.ops f.now) e (vectors (pivot.old ∷ below.old)) ≡ dimension (F.ops f.now) e (vectors below.new) + 1 }
    ensures left { All (ZeroLeft (F.ops f.now) (c + 1)) below.new }
    ensures span { SpanKept (F.ops f.now) d (pivot.old ∷ below.old) (pivot.new ∷ below.new) }
{
    let s = f.inv(pivot[c]);
    scale(f, pivot, d, s);
    clear(f, below, pivot, c, d);
}

// The dimension of the span of the rows' first d codes, by elimination in place: the rows at exit span what they spanned
// at entry. Column c comes first, left of which the rows are 0; a row that was the pivot's is done with. By recursion, so that each
// call speaks of the rows and columns that are left, where a loop's invariant would speak of those that are done with too.
pub(crate) fn eliminate<F: Field>(f: &F, rows: &mut [Row], c: usize, d: usize) -> usize
    requires within { c ≤ d }
    requires narrow { d ≤ WIDTH }
    requires left { All (ZeroLeft (F.ops f.now) c) rows.old }
    ensures value { result ≡ dimension (F.ops f.now) d (vectors rows.old) }
    ensures most { result ≤ length rows.old }
    ensures span { SpanKept (F.ops f.now) d rows.old rows.new }
{
    if c == d {
        return 0;
    }
    match seek(f, rows, c) {
        Some(p) => {
            exchange(rows, p);
            let (pivot, below) = rows.split_first_mut().unwrap();
            turn(f, pivot, below, c, d);
            1 + eliminate(f, below, c + 1, d)
        }
        None => eliminate(f, rows, c + 1, d),
    }
}
