// Reading one line of a certificate record. The access structure and the bytes are no struct: the bytes are another part of the
// record in each function.
ghost use Rattle.std.specs.Prelude.{◌≡◌};
ghost use Rattle.access.specs.View.{participants_of, qualified_in};
ghost use Rattle.certificate.specs.Lines.{line_of, numbered_line};

use crate::kinds::Kind;
use access::AccessStructure;
use polymatroid::Line;
use record::{LineFault, Reason, need};

// The first six bytes as a line: the two mark bytes tell the kind. They are told apart by a slice pattern, as the project asks. Each
// arm reads for itself, so that the kind is not told a second time in `Kind::read`.
fn read_line(structure: &AccessStructure, bytes: &[u8]) -> Result<Line, Reason>
    ensures { result ≡ line_of (participants_of structure.now) (qualified_in structure.now) bytes.now }
{
    need(bytes, 6)?;
    match bytes {
        [0x52, 0x49, rest @ ..] => Kind::Monotonicity.read(structure, rest),
        [0x4C, 0x45, rest @ ..] => Kind::Submodularity.read(structure, rest),
        [0x48, 0x45, rest @ ..] => Kind::Correctness.read(structure, rest),
        [0x42, 0x4C, rest @ ..] => Kind::Privacy.read(structure, rest),
        _ => Err(Reason::WrongMark),
    }
}

// The same as the line with this number, which a fault carries on.
pub(crate) fn read_numbered(
    structure: &AccessStructure,
    number: u16,
    bytes: &[u8],
) -> Result<Line, LineFault>
    ensures { result ≡ numbered_line (participants_of structure.now) (qualified_in structure.now) number bytes.now }
{
    read_line(structure, bytes).map_err(|reason| LineFault {
        reason,
        line: number,
    })
}
