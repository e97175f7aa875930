// Fields of a record, at their offsets. Stored numbers have the highest byte first; a byte past the end counts as 0.
// Bytes and offset are no struct: the offset is another at each call, so it would hold the bytes alone.
ghost use Rattle.std.specs.Prelude.{◌≡◌, ℕ, ◌+◌, ◌<◌, drop, slice_index, Ok};
ghost use Rattle.record.specs.declared.faults.Reason.TheVariants.{CutShort, WrongMark};
ghost use Rattle.record.specs.Reading.{byte, two, four, marked, needed, holds, tried};

use crate::faults::Reason;

// Whether the record has at least `count` bytes: else it is cut short.
pub fn need(bytes: &[u8], count: usize) -> Result<(), Reason>
    ensures { result ≡ needed count bytes.now }
{
    if bytes.len() < count {
        return Err(Reason::CutShort);
    }
    Ok(())
}

pub fn byte_at(bytes: &[u8], at: usize) -> u8
    ensures { result ≡ byte bytes.now at }
{
    bytes.get(at).copied().unwrap_or(0)
}

// The bytes from an offset on; none past the end.
fn rest_at(bytes: &[u8], at: usize) -> &[u8]
    ensures { result.now ≡ drop at bytes.now }
{
    bytes.get(at..).unwrap_or(&[])
}

// N bytes from an offset on, 0 past the end. By the slice's own copy, which needs no proof: `array::from_fn` over `byte_at` would
// need one of what its closure reads. Where N are there, the copy has a fixed length, and calls nothing.
fn bytes_at<const N: usize>(bytes: &[u8], at: usize) -> [u8; N]
    ensures { (i : ℕ) → i < N → slice_index result i ≡ byte bytes.now (at + i) }
{
    let rest = rest_at(bytes, at);
    let mut field = [0; N];
    match rest.get(..N) {
        Some(whole) => field.copy_from_slice(whole),
        None => field[..rest.len()].copy_from_slice(rest),
    }
    field
}

pub fn two_at(bytes: &[u8], at: usize) -> u16
    ensures { result ≡ two bytes.now at }
{
    u16::from_be_bytes(bytes_at(bytes, at))
}

pub fn four_at(bytes: &[u8], at: usize) -> u32
    ensures { result ≡ four bytes.now at }
{
    u32::from_be_bytes(bytes_at(bytes, at))
}

// Whether the first two bytes are the mark. Byte by byte, as the definition: tried with `==` of the arrays, and the proof does not
// close, since it does not know their lengths.
pub fn is_marked(bytes: &[u8], mark: [u8; 2]) -> bool
    ensures { result ≡ marked bytes.now mark }
{
    byte_at(bytes, 0) == mark[0] && byte_at(bytes, 1) == mark[1]
}

// The record begins with the mark, or why not.
pub fn need_mark(bytes: &[u8], mark: [u8; 2]) -> Result<(), Reason>
    ensures { result ≡ tried (holds 2 bytes.now) CutShort (tried (marked bytes.now mark) WrongMark (Ok tt)) }
{
    need(bytes, 2)?;
    if !is_marked(bytes, mark) {
        return Err(Reason::WrongMark);
    }
    Ok(())
}
