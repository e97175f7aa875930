// Why something is refused, and its number.
#[derive(Clone, Copy, Debug, PartialEq, Eq)]
pub enum Reason {
    CutShort = 1,
    WrongMark = 2,
    OutOfRange = 3,
    SetNotAllowed = 4,
    NotAntichain = 5,
    Unlawful = 6,
    SumDiffers = 7,
    LeftOver = 11,
    ParticipantsDiffer = 12,
}

// What is wrong with one line of a record, and the line's number, from 1.
#[derive(Clone, Copy, Debug, PartialEq, Eq)]
pub struct LineFault {
    pub reason: Reason,
    pub line: u16,
}

// What is wrong with a record, and in which line, if it is in one.
#[derive(Clone, Copy, Debug, PartialEq, Eq)]
pub struct RecordFault {
    pub reason: Reason,
    pub line: Option<u16>,
}

// What a call answers when it refuses: the reason, the entry if the call names one, and the line if the fault is in one.
#[derive(Clone, Copy, Debug, PartialEq, Eq)]
pub struct Refusal {
    pub reason: Reason,
    pub entry: Option<u32>,
    pub line: Option<u16>,
}
