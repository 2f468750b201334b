ghost use Rattle.std.specs.Prelude.{◌≡◌, ℕ, ◌<◌, ◌≤◌, ◌^◌, ◌↔◌, List, ◌++◌, Some, None, length};
ghost use Rattle.proto_wire.specs.declared.fault.WireFault.{WireFault};
ghost use Rattle.proto_wire.specs.Wire.{WireField, bytes_field, IsVarintOf, ReadsFields, ReadsVarints, IsFaultAfterFields, IsFaultAfterVarints};
ghost use Rattle.proto_wire.specs.Reading.{wire_fields, packed_varints};
ghost use Rattle.proto_wire.specs.Spelling.{shortest_varint, written_opening, written_field, written_fields, AreWritable};

/// Fields that are written one after the other are read again as the same fields.
pub fn written_fields_are_read()
    ensures { (fields : List WireField) → AreWritable fields
        → ReadsFields (written_fields fields) fields }
{}

/// Fields are put together: bytes behind an opening of their length are a field, and texts of fields, one
/// after the other, are a text of their fields.
pub fn fields_are_put_together()
    ensures opened { (number : ℕ) (bytes : List ℕ) → written_opening number (length bytes) ++ bytes
        ≡ written_field (bytes_field number bytes) }
    ensures joined { (text more : List ℕ) (fields others : List WireField) → ReadsFields text fields
        → ReadsFields more others → ReadsFields (text ++ more) (fields ++ others) }
{}

/// The varint that is written of a number is one of it, and no other is shorter.
pub fn varints_are_shortest()
    ensures spelled { (number : ℕ) → number < 2 ^ 64 → IsVarintOf (shortest_varint number) number }
    ensures shortest { (spelling : List ℕ) (number : ℕ) → IsVarintOf spelling number
        → length (shortest_varint number) ≤ length spelling }
{}

/// What a text is read as: exactly the fields that it is, where it is fields, and otherwise exactly the
/// fields before its first fault, and that fault. The same holds of the numbers of a packed field.
pub fn bytes_read_one_way()
    ensures fields { (text : List ℕ) (fields : List WireField)
        → (wire_fields text ≡ record { items = fields; fault = None }) ↔ ReadsFields text fields }
    ensures fault { (text : List ℕ) (fields : List WireField) (fault : WireFault)
        → (wire_fields text ≡ record { items = fields; fault = Some fault })
        ↔ IsFaultAfterFields text fields fault }
    ensures numbers { (text numbers : List ℕ)
        → (packed_varints text ≡ record { items = numbers; fault = None })
        ↔ ReadsVarints text numbers }
    ensures number_fault { (text numbers : List ℕ) (fault : WireFault)
        → (packed_varints text ≡ record { items = numbers; fault = Some fault })
        ↔ IsFaultAfterVarints text numbers fault }
{}
