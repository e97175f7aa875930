// What a line of a certificate speaks of: one or two sets of participants and the secret.
#[derive(Clone, Copy, Debug, PartialEq, Eq)]
pub enum Inequality {
    Monotonicity(u8, u8),
    Submodularity(u8, u8),
    Correctness(u8),
    Privacy(u8),
}

// An inequality and how often it is taken.
#[derive(Clone, Copy, Debug, PartialEq, Eq)]
pub struct Line {
    pub multiplier: i32,
    pub inequality: Inequality,
}
