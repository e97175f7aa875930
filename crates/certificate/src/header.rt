// The head of a certificate: a weight for each participant, the claimed count, and how many lines follow.
// Weights stand in the order of the participants, with 0 beyond them: seven and how many of them count, since memory is fixed here
// and the definitions of the format speak of both.
#[derive(Clone, Copy, Debug, PartialEq, Eq)]
pub struct Header {
    pub participants: u8,
    pub weights: [u32; 7],
    pub count: u32,
    pub lines: u16,
}
