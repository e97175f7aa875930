ghost use Rattle.std.specs.Prelude.{◌≤◌};
ghost use Rattle.polymatroid.specs.Realising.{UpwardClosed, EmptyUnqualified, AllQualified};
ghost use Rattle.access.specs.Table.{qualified_by};

// Which coalitions of 1 to 7 participants can recover the secret: the coalition with the code 2 k stands at k.
// Whoever joins a qualified coalition does not spoil it; the empty one is not qualified, that of all participants is.
#[derive(Clone, Copy, Debug)]
pub struct AccessStructure {
    pub(crate) participants: u8,
    pub(crate) qualified: [bool; 128],
    ghost some: { 1 ≤ participants },
    ghost few: { participants ≤ 7 },
    ghost upward: { UpwardClosed participants (qualified_by qualified) },
    ghost empty: { EmptyUnqualified (qualified_by qualified) },
    ghost everyone: { AllQualified participants (qualified_by qualified) },
}
