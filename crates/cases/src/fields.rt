// All products and inverses of every order, against multiplications of another kind.
use field::Field;
use galois::{Binary, Gf16, Prime};
use std::process::Abort;

// a added b times, each time less q where the sum has reached it. Here and below the order is a plain number beside the codes, as the
// tests name it.
fn by_sums(q: u8, a: u8, b: u8) -> u8 {
    (0..b).fold(0u8, |sum, _| {
        let next = sum.wrapping_add(a);
        if next >= q { next - q } else { next }
    })
}

// y times a, modulo y^m + y + 1, where q is 2^m.
fn raised(q: u8, a: u8) -> u8 {
    let twice = a.wrapping_mul(2);
    if twice & q == 0 {
        twice
    } else {
        twice ^ q.wrapping_add(3)
    }
}

// Each code but 0 is a power of y: a is multiplied by y as often as it takes from 1 to b.
fn by_powers(q: u8, a: u8, b: u8) -> u8 {
    let mut product = a;
    let mut power: u8 = 1;
    // A `for` that counts turns: a chain would have to carry both numbers and stop at one of them.
    for _ in 0..q {
        if power == b {
            return product;
        }
        power = raised(q, power);
        product = raised(q, product);
    }
    0
}

// Whether the products of a, and its inverse, are right.
fn row_agrees<F: Field, P: Fn(u8, u8) -> u8>(f: &F, product: &P, a: u8) -> bool
    requires { P.IsAlwaysCallable product.now }
{
    (0..f.order()).all(|b| f.mul(a, b) == product(a, b))
        && product(a, f.inv(a)) == if a == 0 { 0 } else { 1 }
}

// A byte of q or more counts as 0, and the inverse of 0 is 0.
fn keeps_conventions<F: Field>(rt: &impl Abort, f: &F, q: u8) {
    assert_eq!(rt; f.order(), q);
    assert_eq!(rt; f.inv(0), 0);
    assert_eq!(rt; f.inv(q), 0);
    assert_eq!(rt; f.mul(q, 1), 0);
    assert_eq!(rt; f.add(255, 1), 1);
    assert_eq!(rt; f.neg(q), 0);
}

// The field of order q has these products.
fn holds<F: Field, P: Fn(u8, u8) -> u8>(rt: &impl Abort, f: &F, q: u8, product: P)
    requires { P.IsAlwaysCallable product }
{
    assert!(rt; (0..f.order()).all(|a| row_agrees(f, &product, a)));
    keeps_conventions(rt, f, q);
}

#[test]
fn products_modulo_primes(rt: HostRuntime) {
    holds(&rt, &Prime { q: 2 }, 2, |a, b| by_sums(2, a, b));
    holds(&rt, &Prime { q: 3 }, 3, |a, b| by_sums(3, a, b));
    holds(&rt, &Prime { q: 5 }, 5, |a, b| by_sums(5, a, b));
    holds(&rt, &Prime { q: 7 }, 7, |a, b| by_sums(7, a, b));
    holds(&rt, &Prime { q: 11 }, 11, |a, b| by_sums(11, a, b));
    holds(&rt, &Prime { q: 13 }, 13, |a, b| by_sums(13, a, b));
}

#[test]
fn products_of_polynomials(rt: HostRuntime) {
    holds(&rt, &Binary { q: 4 }, 4, |a, b| by_powers(4, a, b));
    holds(&rt, &Binary { q: 8 }, 8, |a, b| by_powers(8, a, b));
    holds(&rt, &Gf16, 16, |a, b| by_powers(16, a, b));
}

#[test]
fn worked_products(rt: HostRuntime) {
    assert_eq!(rt; Gf16.mul(2, 8), 3);
    assert_eq!(rt; Gf16.mul(2, 9), 1);
    assert_eq!(rt; Binary { q: 8 }.mul(2, 5), 1);
}
