ghost use Rattle.std.specs.Prelude.{◌≡◌, ℕ, ◌<◌, List, All, IsErr, Ok};
ghost use Rattle.update_client.specs.Held.{Held};
ghost use Rattle.client_store.specs.Store.{AreKept, IsStoreOf, IsCutStore};
ghost use Rattle.client_store.specs.Reading.{store_reading};

/// Where the end of a store is lacking, the rest is no store, whatever its last 32 bytes are: the
/// counts and lengths of a text say how long it is.
pub fn cut_stores_are_not_read()
    ensures { (text : List ℕ) → All (λ byte. byte < 256) text → IsCutStore text
        → IsErr (store_reading text) }
{}

/// A text that is read is a store of the lists that it is read as, and these keep to what lists
/// that may be stored keep to.
pub fn read_texts_are_stores()
    ensures kept { (text : List ℕ) (lists : List Held) → All (λ byte. byte < 256) text
        → store_reading text ≡ Ok lists → AreKept lists }
    ensures store { (text : List ℕ) (lists : List Held) → All (λ byte. byte < 256) text
        → store_reading text ≡ Ok lists → IsStoreOf lists text }
{}
