// The steps of elimination, on rows of 16 codes of which the first d count.
ghost use Rattle.std.specs.Prelude.{◌≡◌, ℕ, ◌<◌, ◌≤◌, position, slice_index};
ghost use Rattle.span.specs.Dimension.{less, minus};
ghost use Rattle.elimination.specs.Rows.{entry, nonzero_at, RowsAre};

use crate::{Row, WIDTH};
use field::Field;

// The first row that is not 0 at column c. A column is a plain index here and in `clear` and `turn`, and so is a width: a type for
// it would be made at each call and opened at each use.
pub(crate) fn seek<F: Field>(f: &F, rows: &[Row], c: usize) -> Option<usize>
    requires { c < WIDTH }
    ensures { result ≡ position (nonzero_at (F.ops f.now) c) rows.now }
{
    rows.iter().position(|row| f.code(row[c]) != 0)
}

// row := s row, over the first d codes
pub(crate) fn scale<F: Field>(f: &F, row: &mut Row, d: usize, s: u8)
    requires { d ≤ WIDTH }
    ensures { (k : ℕ) → k < d → slice_index row.new k ≡ (F.ops f.now).mul s (slice_index row.old k) }
{
    for x in &mut row[..d] {
        *x = f.mul(s, *x);
    }
}

// x - s y
fn subtracted<F: Field>(f: &F, s: u8, x: u8, y: u8) -> u8
    ensures { result ≡ less (F.ops f.now) s x y }
{
    f.add(x, f.neg(f.mul(s, y)))
}

// row := row - s pivot, over the first d codes. By index: tried with `zip` of `iter_mut` and the pivot's codes, after which nothing
// is known of the row.
fn subtract<F: Field>(f: &F, row: &mut Row, pivot: &Row, d: usize, s: u8)
    requires { d ≤ WIDTH }
    ensures { (k : ℕ) → k < d → slice_index row.new k ≡ less (F.ops f.now) s (slice_index row.old k) (slice_index pivot.now k) }
{
    for k in 0..d {
        row[k] = subtracted(f, s, row[k], pivot[k]);
    }
}

// Takes from each row, over its first d codes, as much of the pivot as its code at column c says.
pub(crate) fn clear<F: Field>(f: &F, rows: &mut [Row], pivot: &Row, c: usize, d: usize)
    requires column { c < d }
    requires narrow { d ≤ WIDTH }
    ensures { RowsAre d (λ i. minus (F.ops f.now) (entry rows.old i) (entry rows.old i c) (slice_index pivot.now)) rows.new }
{
    for row in rows {
        let s = row[c];
        subtract(f, row, pivot, d, s);
    }
}
