ghost use Rattle.std.specs.Prelude.{◌≡◌, ◌<◌, ◌≤◌, true, length};
ghost use Rattle.galois.specs.Codes.{inverse};
ghost use Rattle.galois.specs.Polynomials.{times};
ghost use Rattle.galois.specs.Tables.{holds_inverses};

// The inverse of a code below q, from a table that holds the inverses.
pub(crate) fn inverse_at(table: &[u8], q: u8, a: u8) -> u8
    requires right { holds_inverses q table.now ≡ true }
    requires long { q ≤ length table.now }
    requires code { a < q }
    ensures { result ≡ inverse q (times q) a }
{
    table[usize::from(a)]
}
