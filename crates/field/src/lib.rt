// Finite fields on codes: the operations and the laws that any implementation shows.
#![tactic(auto)]

ghost use Rattle.std.specs.Prelude.{◌≡◌};
ghost use Rattle.field.specs.Laws.{Ops, Lawful, code};

// A finite field whose elements are the codes 0 to q - 1. A byte of q or more counts as 0, and the inverse of 0 is 0.
pub trait Field {
    ghost ops: { Self → Ops };

    fn order(&self) -> u8
        ensures { result ≡ (ops self.now).order };

    fn add(&self, a: u8, b: u8) -> u8
        ensures { result ≡ (ops self.now).add a b };

    fn neg(&self, a: u8) -> u8
        ensures { result ≡ (ops self.now).neg a };

    fn mul(&self, a: u8, b: u8) -> u8
        ensures { result ≡ (ops self.now).mul a b };

    // The one code whose product with a is 1, tried in turn; 0 where there is none.
    fn inv(&self, a: u8) -> u8
        ensures { result ≡ (ops self.now).inv a }
    {
        (0..self.order())
            .find(|b| self.mul(a, *b) == 1)
            .unwrap_or(0)
    }

    // The code that a byte counts as.
    fn code(&self, a: u8) -> u8
        ensures { result ≡ code (ops self.now).order a }
    {
        if a < self.order() { a } else { 0 }
    }

    ghost lawful: { (f : Self) → Lawful (ops f) };
}
