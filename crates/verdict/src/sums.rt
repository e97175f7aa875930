// Adding lines up, set by set.
ghost use Rattle.std.specs.Prelude.{◌≡◌, ◌+◌, ◌^◌, ◌≤◌, replicate, pos, unsigned_abs};
ghost use Rattle.access.specs.View.{participants_of, qualified_in};
ghost use Rattle.verdict.specs.Sums.{add_at, add_line, sums_of, peak};

use crate::lines::read_numbered;
use access::AccessStructure;
use polymatroid::{Inequality, Line};
use record::{Reason, RecordFault};

// Adds `by` at `set`.
#[tactic(auto, using(crate::proofs::Steps::additions))]
fn add_at(table: &mut [i64; 256], set: u8, by: i64)
    requires small { unsigned_abs by ≤ 2 ^ 31 }
    requires room { peak table.old ≤ 2 ^ 46 }
    ensures value { table.new ≡ add_at table.old set by }
    ensures grows { peak table.new ≤ peak table.old + 2 ^ 31 }
{
    table[usize::from(set)] += by;
}

// Adds the line's inequality times its multiplier, set by set.
#[tactic(auto, using(crate::proofs::Steps::opposite))]
fn add_line(table: &mut [i64; 256], line: Line)
    requires { peak table.old ≤ 2 ^ 45 }
    ensures value { table.new ≡ add_line table.old line }
    ensures grows { peak table.new ≤ peak table.old + 2 ^ 33 }
{
    let more = i64::from(line.multiplier);
    let less = -more;
    match line.inequality {
        Inequality::Monotonicity(a, b) => {
            add_at(table, b, more);
            add_at(table, a, less);
        }
        Inequality::Submodularity(a, b) => {
            add_at(table, a, more);
            add_at(table, b, more);
            add_at(table, a | b, less);
            add_at(table, a & b, less);
        }
        Inequality::Correctness(a) => {
            add_at(table, a | 1, more);
            add_at(table, a, less);
        }
        Inequality::Privacy(a) => {
            add_at(table, a | 1, more);
            add_at(table, a, less);
            add_at(table, 1, less);
        }
    }
}

// The table after `count` lines, with nothing after them. The bytes are those of the lines alone, so no struct has them beside
// the access structure.
pub(crate) fn add_lines(
    structure: &AccessStructure,
    count: u16,
    bytes: &[u8],
) -> Result<[i64; 256], RecordFault>
    requires { count ≤ 4096 }
    ensures { result ≡ sums_of (participants_of structure.now) (qualified_in structure.now) count 1 bytes.now (replicate 256 (pos 0)) }
{
    let mut table = [0i64; 256];
    // Not in chunks: a line that is missing is cut short, and has its number.
    let mut rest = bytes;
    for number in 1..=count {
        let line = read_numbered(structure, number, rest)?;
        add_line(&mut table, line);
        rest = &rest[6..];
    }
    if !rest.is_empty() {
        return Err(Reason::LeftOver.into());
    }
    Ok(table)
}
