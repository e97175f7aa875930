ghost use Rattle.std.specs.Prelude.{◌≡◌, ◌<◌, true, refl};
ghost use Rattle.galois.specs.Polynomials.{binary_ops, times};
ghost use Rattle.galois.specs.Tables.{holds_products};
ghost use Rattle.galois.specs.Orders.{binary_laws};

use crate::inverses::inverse_at;
use field::Field;

// The field of order 16.
#[derive(Clone, Copy, Debug)]
pub struct Gf16;

// The product of the codes a and b stands in row a at b.
const PRODUCTS: [[u8; 16]; 16] = [
    [0, 0, 0, 0, 0, 0, 0, 0, 0, 0, 0, 0, 0, 0, 0, 0],
    [0, 1, 2, 3, 4, 5, 6, 7, 8, 9, 10, 11, 12, 13, 14, 15],
    [0, 2, 4, 6, 8, 10, 12, 14, 3, 1, 7, 5, 11, 9, 15, 13],
    [0, 3, 6, 5, 12, 15, 10, 9, 11, 8, 13, 14, 7, 4, 1, 2],
    [0, 4, 8, 12, 3, 7, 11, 15, 6, 2, 14, 10, 5, 1, 13, 9],
    [0, 5, 10, 15, 7, 2, 13, 8, 14, 11, 4, 1, 9, 12, 3, 6],
    [0, 6, 12, 10, 11, 13, 7, 1, 5, 3, 9, 15, 14, 8, 2, 4],
    [0, 7, 14, 9, 15, 8, 1, 6, 13, 10, 3, 4, 2, 5, 12, 11],
    [0, 8, 3, 11, 6, 14, 5, 13, 12, 4, 15, 7, 10, 2, 9, 1],
    [0, 9, 1, 8, 2, 11, 3, 10, 4, 13, 5, 12, 6, 15, 7, 14],
    [0, 10, 7, 13, 14, 4, 9, 3, 15, 5, 8, 2, 1, 11, 6, 12],
    [0, 11, 5, 14, 10, 1, 15, 4, 7, 12, 2, 9, 13, 6, 8, 3],
    [0, 12, 11, 7, 5, 9, 14, 2, 10, 6, 1, 13, 15, 3, 4, 8],
    [0, 13, 9, 4, 1, 12, 8, 5, 2, 15, 11, 6, 3, 14, 10, 7],
    [0, 14, 15, 1, 13, 3, 2, 12, 9, 7, 6, 8, 4, 10, 11, 5],
    [0, 15, 13, 2, 9, 6, 4, 11, 1, 14, 12, 3, 8, 7, 5, 10],
];

const INVERSES: [u8; 16] = [0, 1, 9, 14, 13, 11, 7, 6, 15, 2, 12, 5, 10, 4, 3, 8];

// The product of two codes, from a table that holds the products. The table is a parameter, since a constant has no name in a proof.
fn product_at(table: &[[u8; 16]; 16], a: u8, b: u8) -> u8
    requires right { holds_products table.now ≡ true }
    requires codes { (a < 16) × (b < 16) }
    ensures { result ≡ times 16 a b }
{
    table[usize::from(a)][usize::from(b)]
}

// Polynomials over GF(2) modulo y^4 + y + 1, by tables.
impl Field for Gf16 {
    ghost ops = { λ _. binary_ops 16 };

    ghost lawful = { λ _. binary_laws 16 refl };

    fn order(&self) -> u8 {
        16
    }

    // `add` and `neg` as in `Binary`, a line each: a body for both would call `code` of the impl that calls it, a cycle, which the
    // check refuses or wants a measure for.
    fn add(&self, a: u8, b: u8) -> u8 {
        self.code(a) ^ self.code(b)
    }

    fn neg(&self, a: u8) -> u8 {
        self.code(a) // its own negative
    }

    fn mul(&self, a: u8, b: u8) -> u8 {
        product_at(&PRODUCTS, self.code(a), self.code(b))
    }

    // From a table: trying the codes costs up to 16 products.
    fn inv(&self, a: u8) -> u8 {
        inverse_at(&INVERSES, 16, self.code(a))
    }
}
