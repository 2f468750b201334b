ghost use Rattle.std.specs.Prelude.{◌≡◌, ◌⊎◌, ◌≤◌, length, Ok, Err, IfOk, IfErr};
ghost use Rattle.serde_json.specs.View.{view};
ghost use Rattle.sb_members.specs.Rows.{whole_or_zero};
ghost use Rattle.update_messages.specs.Messages.{most_i32};
ghost use Rattle.update_messages.specs.Rows as spec;

use sb_json::{Field, FieldFault};
use sb_members::{bytes_or_empty, whole_or_zero};
use sb_model::Bytes;
use serde_json::Value;
use std::alloc::Global;

/// The most bytes of a state token.
const MOST_STATE: usize = 4_096;

/// The greatest number of 32 bits with a sign.
const MOST_I32: u64 = 2_147_483_647;

/// A whole number up to 2,147,483,647, which is 0 where it is absent.
pub(crate) fn i32_or_zero(holder: &Value, name: Field) -> Result<u32, FieldFault>
    ensures value { result ≡ whole_or_zero name most_i32 (view holder.now) }
    ensures limit { IfOk result (λ n. n ≤ most_i32) }
{
    Ok(whole_or_zero(holder, name, MOST_I32)? as u32)
}

/// A state token, which is empty where it is absent.
pub(crate) fn state_or_empty(
    alloc: Global,
    holder: &Value,
    name: Field,
) -> Result<Bytes, FieldFault>
    ensures ok { IfOk result (λ state. spec.state_or_empty name (view holder.now) ≡ Ok state) }
    ensures limit { IfOk result (λ state. length state ≤ 4096) }
    ensures err { IfErr result (λ fault. (fault ≡ FieldFault.OutOfMemory)
        ⊎ (spec.state_or_empty name (view holder.now) ≡ Err fault)) }
{
    let state = bytes_or_empty(alloc, holder, name)?;
    if state.len() > MOST_STATE {
        return Err(FieldFault::Size(name, state.len() as u64));
    }
    Ok(state)
}
