ghost use Rattle.std.specs.Prelude.{◌≡◌, ◌+◌, ◌<◌, ◌≤◌, ◌^◌, ◌++◌, length, OnOk, OnErr};
ghost use Rattle.proto_wire.specs.Wire.{number_field, bytes_field};
ghost use Rattle.proto_wire.specs.Spelling.{shortest_varint, written_opening, written_field};

use crate::spelling::spell;
use sb_model::{Bytes, OutOfMemory};

/// How many bytes the varint of a number takes: 1 to 10.
pub fn varint_len(number: u64) -> usize
    ensures len { result ≡ length (shortest_varint number) }
    ensures few { result ≤ 10 }
{
    spell(number).len()
}

/// How many bytes the field takes that `push_number` writes.
pub fn number_len(field: u32, number: u64) -> usize
    ensures len { result ≡ length (written_field (number_field field number)) }
    ensures few { result ≤ 20 }
{
    varint_len(u64::from(field) * 8) + varint_len(number)
}

/// How many bytes the field takes that `push_bytes` writes, or `push_open` with the bytes after it.
pub fn bytes_len(field: u32, count: usize) -> usize
    requires { count < 2 ^ 63 }
    ensures len { result ≡ length (written_opening field count) + count }
    ensures few { result ≤ count + 20 }
{
    varint_len(u64::from(field) * 8 + 2) + varint_len(count as u64) + count
}

/// Appends two pieces, or nothing.
fn append_both(bytes: &mut Bytes, first: &[u8], second: &[u8]) -> Result<(), OutOfMemory>
    ensures ok { OnOk result (bytes.new ≡ bytes.old ++ first.now ++ second.now) }
    ensures err { OnErr result (bytes.new ≡ bytes.old) }
{
    let before = bytes.len();
    bytes.append(first)?;
    let appended = bytes.append(second);
    if appended.is_err() {
        bytes.truncate(before);
    }
    appended
}

/// Appends the shortest varint of a number.
pub fn push_varint(bytes: &mut Bytes, number: u64) -> Result<(), OutOfMemory>
    ensures ok { OnOk result (bytes.new ≡ bytes.old ++ shortest_varint number) }
    ensures err { OnErr result (bytes.new ≡ bytes.old) }
{
    bytes.append(spell(number).as_slice())
}

/// Appends a field whose value is a number, as a varint.
pub fn push_number(bytes: &mut Bytes, field: u32, number: u64) -> Result<(), OutOfMemory>
    ensures ok { OnOk result (bytes.new ≡ bytes.old ++ written_field (number_field field number)) }
    ensures err { OnErr result (bytes.new ≡ bytes.old) }
{
    let key = spell(u64::from(field) * 8);
    append_both(bytes, key.as_slice(), spell(number).as_slice())
}

/// Appends what stands before the bytes of a field, of which there are so many. The bytes follow, as a
/// message that is written after it.
pub fn push_open(bytes: &mut Bytes, field: u32, count: usize) -> Result<(), OutOfMemory>
    ensures ok { OnOk result (bytes.new ≡ bytes.old ++ written_opening field count) }
    ensures err { OnErr result (bytes.new ≡ bytes.old) }
{
    let key = spell(u64::from(field) * 8 + 2);
    append_both(bytes, key.as_slice(), spell(count as u64).as_slice())
}

/// Appends a field whose value is bytes.
pub fn push_bytes(bytes: &mut Bytes, field: u32, value: &[u8]) -> Result<(), OutOfMemory>
    ensures ok { OnOk result (bytes.new ≡ bytes.old ++ written_field (bytes_field field value.now)) }
    ensures err { OnErr result (bytes.new ≡ bytes.old) }
{
    let before = bytes.len();
    push_open(bytes, field, value.len())?;
    let appended = bytes.append(value);
    if appended.is_err() {
        bytes.truncate(before);
    }
    appended
}
