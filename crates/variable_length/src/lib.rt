// Byte values: a value of length n is the first n bytes of the rest, handed back as a part of it.
#![tactic(auto)]

ghost use Rattle.std.specs.Prelude.{◌≡◌, ◌≤◌, length, drop};
ghost use Rattle.format.specs.ByteValues.{ValueRead, ValueGiven};

use format::{Answer, ByteOffset, Kind, Refusal, RowNumber, Run};

// Where the rest begins: a position past the end is empty input.
fn rest(input: &[u8], at: ByteOffset) -> ByteOffset
    ensures { (result.bytes ≤ length input.now)
        × (drop result.bytes input.now ≡ drop at.bytes input.now) }
{
    ByteOffset {
        bytes: at.bytes.min(input.len()),
    }
}

// The value's counts, or refusal 6 if the input ends before the value does: the cut field begins at the call's position.
pub fn read_value(input: &[u8], at: ByteOffset, n: ByteOffset) -> Answer
    ensures { ValueRead input.now at.bytes n.bytes result }
{
    let start = rest(input, at).bytes;
    let size = n.bytes;
    if size <= input.len() - start {
        Ok(Some(Run::new(Kind::ByteValues, 8, RowNumber { rows: size }, n)))
    } else {
        Err(Refusal::cut(6, at, at))
    }
}

// The value itself, a part of the input: empty if `read_value` refuses.
pub fn value(input: &[u8], at: ByteOffset, n: ByteOffset) -> &[u8]
    ensures { ValueGiven input.now at.bytes n.bytes result.now }
{
    let start = rest(input, at).bytes;
    let size = n.bytes;
    if size <= input.len() - start {
        return &input[start..start + size];
    }
    &input[..0]
}
