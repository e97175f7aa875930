// The rank of vectors over any field, by elimination.
#![tactic(auto)]

ghost use Rattle.std.specs.Prelude.{◌≡◌, ℕ, ◌*◌, ◌<◌, ◌≤◌, length, slice_index};
ghost use Rattle.elimination.specs.Rows.{row, RowsAre};
ghost use Rattle.elimination.specs.Rank.{count_in, rank_of, CountsBasis};

use crate::turns::eliminate;
use field::Field;

mod steps;
mod turns;

// At most 32 vectors of at most 16 codes.
const ROOM: usize = 32;

const WIDTH: usize = 16;

// A vector, and room behind it that counts for nothing.
type Row = [u8; WIDTH];

// How many vectors of the given width the codes are, if they are at most 32 whole ones of 1 to 16 codes each.
fn count_in(codes: usize, width: usize) -> Option<usize>
    ensures { result ≡ count_in codes width }
{
    let fits = (1..=WIDTH).contains(&width) && codes % width == 0 && codes / width <= ROOM;
    fits.then(|| codes / width)
}

// The dimension of the span of vectors that stand one after another, each of `width` codes. There is no answer where
// they are not at most 32 whole vectors of 1 to 16 codes. The vectors are read only.
pub fn rank<F: Field>(f: &F, vectors: &[u8], width: usize) -> Option<u8>
    ensures value { result ≡ rank_of (F.ops f.now) vectors.now width }
    ensures basis { CountsBasis (F.ops f.now) vectors.now width result }
{
    let count = count_in(vectors.len(), width)?;
    let mut work = [[0; WIDTH]; ROOM];
    let rows = &mut work[..count];
    fill(rows, vectors, width);
    Some(eliminate(f, rows, 0, width) as u8)
}

// Writes a vector to the front of each row. Tried with `zip` of `iter_mut` and `chunks_exact`: the proof does not close, since
// nothing is then known of the rows. A width, like a column, is a plain number, asked to be in range where it is used.
fn fill(rows: &mut [Row], vectors: &[u8], width: usize)
    requires whole { length rows.old * width ≡ length vectors.now }
    requires narrow { width ≤ WIDTH }
    ensures { RowsAre width (row vectors.now width) rows.new }
{
    let mut rest = vectors;
    for row in rows {
        place(row, rest);
        rest = &rest[width..];
    }
}

// Writes the first codes to the row, as many as it has room for. What stands behind a vector does not matter, and a whole row is
// copied by a fixed length, without a call.
fn place(row: &mut Row, codes: &[u8])
    ensures { (k : ℕ) → k < WIDTH → k < length codes.now → slice_index row.new k ≡ slice_index codes.now k }
{
    match codes.get(..WIDTH) {
        Some(whole) => row.copy_from_slice(whole),
        None => row[..codes.len()].copy_from_slice(codes),
    }
}
