ghost use Rattle.std.specs.Prelude.{◌≡◌, ◌⊎◌, ℕ, List, filter};
ghost use Rattle.proto_wire.specs.Wire.{WireField, ReadsFields};
ghost use Rattle.proto_messages.specs.declared.fault.ProtoFault.{ProtoFault};
ghost use Rattle.proto_messages.specs.declared.fetch_request.NumberedFetch.{NumberedFetch};
ghost use Rattle.proto_messages.specs.declared.find_request.NumberedFind.{NumberedFind};
ghost use Rattle.proto_messages.specs.Fetch.{fetch_of};
ghost use Rattle.proto_messages.specs.Find.{find_of};
ghost use Rattle.proto_messages.specs.Answers.{WrittenFindsAreRead};
ghost use Rattle.proto_messages.specs.FetchAnswers.{WrittenFetchesAreRead};
ghost use Rattle.proto_messages.specs.Query.{QueriesReadOneWay};
ghost use Rattle.proto_messages.specs.Reading.{ReadsFetch, IsFetchFault, ReadsFind, IsFindFault, is_fetch_field, is_find_field};

use proto_wire::{bytes_read_one_way, varints_are_shortest, written_fields_are_read};

/// Bytes are one fetch request at most, and one find request at most.
pub fn requests_read_one_way()
    ensures fetch { (text : List ℕ) (a b : NumberedFetch) → ReadsFetch text a → ReadsFetch text b → a ≡ b }
    ensures find { (text : List ℕ) (a b : NumberedFind) → ReadsFind text a → ReadsFind text b → a ≡ b }
{}

/// Bytes are a request or have a first fault, and never both.
pub fn requests_are_read_or_refused()
    ensures fetch { (text : List ℕ) → ((message : NumberedFetch) × ReadsFetch text message)
        ⊎ ((fault : ProtoFault) × IsFetchFault text fault) }
    ensures no_fetch { (text : List ℕ) (message : NumberedFetch) (fault : ProtoFault)
        → ReadsFetch text message → IsFetchFault text fault → ⊥ }
    ensures find { (text : List ℕ) → ((message : NumberedFind) × ReadsFind text message)
        ⊎ ((fault : ProtoFault) × IsFindFault text fault) }
    ensures no_find { (text : List ℕ) (message : NumberedFind) (fault : ProtoFault)
        → ReadsFind text message → IsFindFault text fault → ⊥ }
{}

/// Fields of other numbers change nothing of a request, wherever they stand.
pub fn other_fields_change_nothing()
    ensures fetch { (text other : List ℕ) (fields others : List WireField)
        → ReadsFields text fields → ReadsFields other others
        → filter is_fetch_field fields ≡ filter is_fetch_field others → fetch_of text ≡ fetch_of other }
    ensures find { (text other : List ℕ) (fields others : List WireField)
        → ReadsFields text fields → ReadsFields other others
        → filter is_find_field fields ≡ filter is_find_field others → find_of text ≡ find_of other }
{
    bytes_read_one_way();
}

/// What is written of an answer to a find tells what the answer is to who reads it: its matches in their order, and its durations.
pub fn written_matches_are_read()
    ensures { WrittenFindsAreRead }
{
    written_fields_are_read();
    bytes_read_one_way();
}

/// What is written of an answer to a fetch tells what the answer is to who reads it: its updates in their order, each with the number of
/// its threat, and its wait. A full update without additions tells one set without hashes, and no update tells its base state.
pub fn written_fetches_are_read()
    ensures { WrittenFetchesAreRead }
{
    written_fields_are_read();
    varints_are_shortest();
    bytes_read_one_way();
}

/// The text of a query is that of one message at most.
pub fn queries_read_one_way()
    ensures { QueriesReadOneWay }
{}
