// Sets of participants and the secret as codes: bit 0 is the secret, bit i is participant i.
ghost use Rattle.std.specs.Prelude.{◌≡◌, not, ◌&&◌, ◌==◌};
ghost use Rattle.polymatroid.specs.Tests.{in_ground, within, coalition};
ghost use Rattle.access.specs.Format.{comparable};

// Whether the set lies in the ground set of n participants and the secret. With 7 or more every byte does.
pub fn in_ground(n: u8, set: u8) -> bool
    ensures { result ≡ in_ground n set }
{
    n >= 7 || u32::from(set) < 1u32 << (u32::from(n) + 1)
}

// Whether every member of `a` is a member of `b`.
pub fn is_within(a: u8, b: u8) -> bool
    ensures { result ≡ within a b }
{
    a & b == a
}

// Whether every member of `a` is a member of `b`, and the two are not the same.
pub fn is_properly_within(a: u8, b: u8) -> bool
    ensures { result ≡ (within a b && not (a == b)) }
{
    is_within(a, b) && a != b
}

// Whether the set is one of participants alone.
pub fn is_coalition(n: u8, set: u8) -> bool
    ensures { result ≡ coalition n set }
{
    in_ground(n, set) && set & 1 == 0
}

// Whether one of the two contains or equals the other.
pub fn are_comparable(a: u8, b: u8) -> bool
    ensures { result ≡ comparable a b }
{
    is_within(a, b) || is_within(b, a)
}
