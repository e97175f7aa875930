ghost use Rattle.std.specs.Prelude.{◌≡◌, ◌<◌, true, ◌==◌};
ghost use Rattle.std.proofs.lemmas.Bool.{or_left};
ghost use Rattle.galois.specs.Polynomials.{is_computed_order, binary_ops};
ghost use Rattle.galois.specs.Steps.{times_y, where_odd, stepwise};
ghost use Rattle.galois.specs.Orders.{binary_laws};

use crate::inverses::inverse_at;
use field::Field;

// The field of order 4 or 8. Not one type with `Prime`: only `order` would be shared, every other method and the
// invariant differ.
#[derive(Clone, Copy, Debug)]
pub struct Binary {
    pub q: u8,
    ghost listed: { is_computed_order q ≡ true },
}

const INVERSES_4: [u8; 4] = [0, 1, 3, 2];

const INVERSES_8: [u8; 8] = [0, 1, 5, 6, 7, 2, 3, 4];

// a where the lowest term of b is there, else 0.
fn where_odd(b: u8, a: u8) -> u8
    ensures { result ≡ where_odd b a }
{
    if b % 2 == 1 { a } else { 0 }
}

impl Binary {
    // y times a code, modulo the polynomial of order q. That it is a code is asked, here, in `product` and in a table's look-up: a
    // type for codes would be made of a byte at every call.
    fn times_y(&self, a: u8) -> u8
        requires { a < self.now.q }
        ensures is { result ≡ times_y self.now.q a }
        ensures below { result < self.now.q }
    {
        let shifted = 2 * a;
        if shifted < self.q {
            shifted
        } else {
            shifted ^ (self.q + 3)
        }
    }

    // The product of two codes: the sum of a, y a and y² a where b has the term.
    fn product(&self, a: u8, b: u8) -> u8
        requires { a < self.now.q }
        ensures { result ≡ stepwise self.now.q a b }
    {
        let ya = self.times_y(a);
        let yya = self.times_y(ya);
        where_odd(b, a) ^ where_odd(b / 2, ya) ^ where_odd(b / 4, yya)
    }
}

// Polynomials over GF(2), by shift and xor.
impl Field for Binary {
    ghost ops = { λ s. binary_ops s.q };

    ghost lawful = { λ s. binary_laws s.q (or_left (is_computed_order s.q) (s.q == 16) s.listed) };

    fn order(&self) -> u8 {
        self.q
    }

    fn add(&self, a: u8, b: u8) -> u8 {
        self.code(a) ^ self.code(b)
    }

    fn neg(&self, a: u8) -> u8 {
        self.code(a) // its own negative
    }

    fn mul(&self, a: u8, b: u8) -> u8 {
        self.product(self.code(a), self.code(b))
    }

    // From a table of the order's: trying the codes costs up to 8 products.
    fn inv(&self, a: u8) -> u8 {
        let code = self.code(a);
        if self.q == 4 {
            inverse_at(&INVERSES_4, self.q, code)
        } else {
            inverse_at(&INVERSES_8, self.q, code)
        }
    }
}
