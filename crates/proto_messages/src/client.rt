ghost use Rattle.std.specs.Prelude.{◌≡◌, ◌⊎◌, Ok, Err, IfOk, IfErr};
ghost use Rattle.proto_wire.specs.Reading.{wire_fields};
ghost use Rattle.proto_messages.specs.Fields.{fields_of};
ghost use Rattle.proto_messages.specs.Rows as spec;
ghost use Rattle.proto_messages.specs.Parts.{fields_of_part};

use crate::PartFault;
use crate::part::Part;
use crate::rows::{bytes_row, check_message, message_row};
use sb_json::{Field, FieldFault};
use sb_model::Text;
use std::alloc::Global;
use update_messages::ClientInfo;

/// The text that bytes spell.
#[tactic(auto, using(crate::proofs::TextFacts::text_read, crate::proofs::TextFacts::no_text))]
fn text_in(alloc: Global, field: Field, bytes: &[u8]) -> Result<Text, PartFault>
    ensures ok { IfOk result (λ text. spec.utf8_text_in field bytes.now ≡ Ok text) }
    ensures err { IfErr result (λ fault. (fault ≡ PartFault.OutOfMemory) ⊎ (spec.utf8_text_in field bytes.now ≡ Err fault)) }
{
    match str::from_utf8(bytes) {
        Ok(text) => Ok(Text::from_str(alloc, text)?),
        Err(_) => Err(PartFault::Field(FieldFault::WrongKind(field))),
    }
}

/// A field that is a text, empty if it is absent.
fn text_row(alloc: Global, part: &Part<'_>, field: Field, number: u32) -> Result<Text, PartFault>
    ensures ok { IfOk result (λ text. spec.text_row field number (fields_of_part part.now) ≡ Ok text) }
    ensures err { IfErr result (λ fault. (fault ≡ PartFault.OutOfMemory)
        ⊎ (spec.text_row field number (fields_of_part part.now) ≡ Err fault)) }
{
    text_in(alloc, field, bytes_row(part, field, number)?)
}

/// Who asks.
#[tactic(auto, unfolding(crate::specs::Rows::client_of))]
fn client_of(alloc: Global, part: &Part<'_>) -> Result<ClientInfo, PartFault>
    ensures ok { IfOk result (λ client. spec.client_of (fields_of_part part.now) ≡ Ok client) }
    ensures err { IfErr result (λ fault. (fault ≡ PartFault.OutOfMemory)
        ⊎ (spec.client_of (fields_of_part part.now) ≡ Err fault)) }
{
    let id = text_row(alloc, part, Field::ClientId, 1)?;
    let version = text_row(alloc, part, Field::ClientVersion, 2)?;
    Ok(ClientInfo { id, version })
}

/// Who asks by the request that bytes are.
pub(crate) fn client_in(alloc: Global, bytes: &[u8]) -> Result<ClientInfo, PartFault>
    ensures fields { IfOk result (λ _. fields_of Field.Root bytes.now ≡ Ok (wire_fields bytes.now).items) }
    ensures ok { IfOk result (λ client. spec.client_message_row (wire_fields bytes.now).items ≡ Ok client) }
    ensures err { IfErr result (λ fault. (fault ≡ PartFault.OutOfMemory)
        ⊎ (spec.client_in bytes.now ≡ Err fault)) }
{
    check_message(Field::Root, bytes)?;
    let part = message_row(bytes, Field::Client, 1)?;
    client_of(alloc, &part)
}
