// Ranks over every order, against those that tools/expected_ranks finds in another way.
use elimination::rank;
use field::Field;
use galois::{Binary, Gf16, Prime};
use std::process::Abort;

// Codes from 0 to 15 as they come from a seed; those of the order or more count as 0.
fn codes(seed: u32) -> [u8; 512] {
    let mut m = [0; 512];
    let mut x = seed;
    for code in &mut m {
        x = x.wrapping_mul(1_103_515_245).wrapping_add(12_345);
        *code = (x / 65_536 % 16) as u8;
    }
    m
}

// 32 vectors of which each after the fifth is the sum of two before it.
fn tied<F: Field>(f: &F, seed: u32) -> [u8; 512] {
    let mut m = codes(seed);
    // By index: each code is made of two that stand before it in the same array, which no iterator lends.
    for i in 80..512 {
        m[i] = f.add(m[i - 80], m[i - 16]);
    }
    m
}

// The rank of the vectors that the first codes are. Tried with slices at the calls: the bounds of the later ones are not proved.
fn rank_of_first<F: Field>(f: &F, m: &[u8; 512], codes: usize, width: usize) -> Option<u8> {
    rank(f, m.get(..codes)?, width)
}

// No vectors, zero vectors, repeated vectors, unit vectors.
fn plain_ranks<F: Field>(rt: &impl Abort, f: &F) {
    assert_eq!(rt; rank(f, &[], 3), Some(0));
    assert_eq!(rt; rank(f, &[0; 12], 4), Some(0));
    assert_eq!(rt; rank(f, &[1, 0, 1, 1, 0, 1, 1, 0, 1], 3), Some(1));
    assert_eq!(rt; rank(f, &[0, 0, 1, 0, 1, 0, 1, 0, 0], 3), Some(3));
}

// Those, and the matrices of the seed, up to 32 vectors of 16 codes.
fn ranks_are<F: Field>(rt: &impl Abort, f: &F, expected: [u8; 6]) {
    plain_ranks(rt, f);
    let seed = u32::from(f.order());
    let m = codes(seed);
    assert_eq!(rt; rank_of_first(f, &m, 9, 3), Some(expected[0]));
    assert_eq!(rt; rank_of_first(f, &m, 32, 1), Some(expected[1]));
    assert_eq!(rt; rank_of_first(f, &m, 140, 7), Some(expected[2]));
    assert_eq!(rt; rank_of_first(f, &m, 256, 16), Some(expected[3]));
    assert_eq!(rt; rank_of_first(f, &m, 512, 16), Some(expected[4]));
    let sums = tied(f, seed.wrapping_add(100));
    assert_eq!(rt; rank_of_first(f, &sums, 512, 16), Some(expected[5]));
}

#[test]
fn ranks_over_two_and_three(rt: HostRuntime) {
    ranks_are(&rt, &Prime { q: 2 }, [1, 1, 7, 9, 13, 3]);
    ranks_are(&rt, &Prime { q: 3 }, [0, 1, 7, 13, 16, 5]);
}

#[test]
fn ranks_over_the_larger_primes(rt: HostRuntime) {
    ranks_are(&rt, &Prime { q: 5 }, [1, 1, 7, 16, 16, 5]);
    ranks_are(&rt, &Prime { q: 7 }, [3, 1, 7, 16, 16, 5]);
    ranks_are(&rt, &Prime { q: 11 }, [3, 1, 7, 16, 16, 5]);
    ranks_are(&rt, &Prime { q: 13 }, [3, 1, 7, 16, 16, 5]);
}

#[test]
fn ranks_over_four_eight_and_sixteen(rt: HostRuntime) {
    ranks_are(&rt, &Binary { q: 4 }, [1, 1, 7, 16, 16, 4]);
    ranks_are(&rt, &Binary { q: 8 }, [3, 1, 7, 16, 16, 5]);
    ranks_are(&rt, &Gf16, [3, 1, 7, 16, 16, 5]);
}

// The same vectors have another rank over another order.
#[test]
fn the_order_counts(rt: HostRuntime) {
    let m = [1, 1, 0, 0, 1, 1, 1, 0, 1];
    assert_eq!(rt; rank(&Prime { q: 2 }, &m, 3), Some(2));
    assert_eq!(rt; rank(&Prime { q: 3 }, &m, 3), Some(3));
}

#[test]
fn vectors_have_limits(rt: HostRuntime) {
    let two = Prime { q: 2 };
    assert_eq!(rt; rank(&two, &[1; 512], 16), Some(1));
    assert_eq!(rt; rank(&two, &[1; 528], 16), None);
    assert_eq!(rt; rank(&two, &[1; 32], 1), Some(1));
    assert_eq!(rt; rank(&two, &[1; 33], 1), None);
    assert_eq!(rt; rank(&two, &[1; 17], 17), None);
    assert_eq!(rt; rank(&two, &[1; 10], 0), None);
    assert_eq!(rt; rank(&two, &[1; 10], 3), None);
}
