ghost use Rattle.std.specs.Prelude.{◌≡◌, Ok, Err, IfOk, IfErr};
ghost use Rattle.proto_wire.specs.Reading.{varint_at};

use crate::WireFault;

/// A number and the bytes after its varint.
#[derive(Clone, Copy)]
pub struct TakenNumber<'a> {
    pub number: u64,
    pub rest: &'a [u8],
}

/// The number of the varint with which bytes begin. The place is for a fault.
pub fn take_varint(bytes: &[u8], place: usize) -> Result<TakenNumber<'_>, WireFault>
    ensures read { IfOk result (λ taken. varint_at place bytes.now
        ≡ Ok (taken.number, taken.rest.now)) }
    ensures fault { IfErr result (λ fault. varint_at place bytes.now ≡ Err fault) }
{
    let mut number = 0;
    let mut worth = 1;
    for (i, byte) in bytes.iter().enumerate() {
        let byte = u64::from(*byte);
        if i == 9 && byte > 1 {
            return Err(WireFault::LongVarint(place));
        }
        if byte < 128 {
            return Ok(TakenNumber {
                number: number + byte * worth,
                rest: &bytes[i + 1..],
            });
        }
        number += byte % 128 * worth;
        worth *= 128;
    }
    Err(WireFault::Cut(place))
}
