ghost use Rattle.std.specs.Prelude.{ℕ, ◌<◌, ◌≤◌, slice_index};

use certificate::Header;

// A head as a record has it: of at most 7 participants, each weight of two bytes. So no sum of weights overflows.
#[derive(Clone, Copy)]
pub(crate) struct Head {
    pub header: Header,
    ghost few: { header.participants ≤ 7 },
    ghost small: { (k : ℕ) → slice_index header.weights k < 65536 },
}
