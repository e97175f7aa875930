ghost use Rattle.std.specs.Prelude.{◌≡◌, true};
ghost use Rattle.galois.specs.Modular.{is_prime_order, prime_ops};
ghost use Rattle.galois.specs.Orders.{prime_laws};

use field::Field;

// The field of prime order q: 2, 3, 5, 7, 11 or 13.
#[derive(Clone, Copy, Debug)]
pub struct Prime {
    pub q: u8,
    ghost listed: { is_prime_order q ≡ true },
}

// Whole numbers modulo q.
impl Field for Prime {
    ghost ops = { λ p. prime_ops p.q };

    ghost lawful = { λ p. prime_laws p.q p.listed };

    fn order(&self) -> u8 {
        self.q
    }

    fn add(&self, a: u8, b: u8) -> u8 {
        (self.code(a) + self.code(b)) % self.q
    }

    fn neg(&self, a: u8) -> u8 {
        (self.q - self.code(a)) % self.q
    }

    fn mul(&self, a: u8, b: u8) -> u8 {
        self.code(a) * self.code(b) % self.q
    }
}
