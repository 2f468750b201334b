ghost use Rattle.std.specs.Prelude.{◌≡◌, ◌≤◌, ◌<◌, ◌++◌, length, Ok, OnOk, IfOk, All};
ghost use Rattle.std.specs.List.{flat_map};
ghost use Rattle.prefix_set.specs.Limits.{IsPrefixSet};
ghost use Rattle.client_store.specs.Store.{prefix_text, set_text, name_text, mark_text, stored_token_text, list_text, body_text, store_text, IsKept, AreKept, IsStoreOf};
ghost use Rattle.client_store.specs.Reading.{store_reading};
ghost use Rattle.client_store.specs.declared.format.Format.TheVariants.{EachSize};

use prefix_set::PrefixSet;
use sb_model::{Bytes, ListName, OutOfMemory};
use sha2::{Digest, Sha256};
use std::alloc::Global;
use update_client::{ClientLists, HeldList};

// The members of a text are bytes.
fn are_bytes(text: &[u8])
    ensures { All (λ byte. byte < 256) text.now }
{}

// Appends a name.
fn push_name(text: &mut Bytes, name: ListName) -> Result<(), OutOfMemory>
    ensures { OnOk result (text.new ≡ text.old ++ name_text name) }
{
    let codes = [name.threat.code(), name.platform.code(), name.entry.code()];
    text.append(&codes)
}

// Appends a token, after its length.
fn push_token(text: &mut Bytes, token: &Bytes) -> Result<(), OutOfMemory>
    requires { length token.now ≤ 4096 }
    ensures { OnOk result (text.new ≡ text.old ++ stored_token_text token.now) }
{
    text.append(&(token.len() as u16).to_be_bytes())?;
    text.append(token.as_slice())
}

// Appends a prefix, after its size.
fn push_prefix(text: &mut Bytes, prefix: &[u8]) -> Result<(), OutOfMemory>
    requires { length prefix.now ≤ 32 }
    ensures { OnOk result (text.new ≡ text.old ++ prefix_text prefix.now) }
{
    text.push(prefix.len() as u8)?;
    text.append(prefix)
}

// Appends the prefixes of a set.
fn push_prefixes(text: &mut Bytes, set: &PrefixSet) -> Result<(), OutOfMemory>
    ensures { OnOk result (text.new ≡ text.old ++ flat_map prefix_text set.now) }
{
    for prefix in set.iter() {
        push_prefix(text, prefix)?;
    }
    Ok(())
}

// Appends the number of prefixes, and the prefixes.
fn push_set(text: &mut Bytes, set: &PrefixSet) -> Result<(), OutOfMemory>
    ensures text { OnOk result (text.new ≡ text.old ++ set_text EachSize set.now) }
    ensures kept { IsPrefixSet set.now }
{
    text.append(&set.len().to_be_bytes())?;
    push_prefixes(text, set)
}

// Appends a list.
fn push_list(text: &mut Bytes, held: &HeldList) -> Result<(), OutOfMemory>
    ensures text { OnOk result (text.new ≡ text.old ++ list_text EachSize held.now) }
    ensures kept { OnOk result (IsKept held.now) }
{
    push_name(text, held.name)?;
    text.push(u8::from(held.resync))?;
    push_token(text, &held.token)?;
    push_set(text, &held.set)
}

// What stands before the digest.
fn body(alloc: Global, lists: &ClientLists) -> Result<Bytes, OutOfMemory>
    ensures text { IfOk result (λ text. text ≡ body_text EachSize lists.now) }
    ensures kept { OnOk result (AreKept lists.now) }
{
    let lists = lists.lists();
    let mut text = Bytes::new(alloc);
    text.append(b"SBST")?;
    text.push(2)?;
    text.push(lists.len() as u8)?;
    for held in lists {
        push_list(&mut text, held)?;
    }
    Ok(text)
}

/// The text in which lists are kept, in format 2. `read_store` reads it again.
pub fn write_store(alloc: Global, lists: &ClientLists) -> Result<Bytes, OutOfMemory>
    ensures text { IfOk result (λ text. text ≡ store_text lists.now) }
    ensures read_again { IfOk result (λ text. store_reading text ≡ Ok lists.now) }
    ensures bytes { IfOk result (λ text. All (λ byte. byte < 256) text) }

    // What `read_store` says of stores holds of the text.
    ensures store { IfOk result (λ text. IsStoreOf lists.now text) }
    ensures kept { OnOk result (AreKept lists.now) }
{
    let mut text = body(alloc, lists)?;
    let digest = Sha256::digest(text.as_slice());
    text.append(&digest)?;
    are_bytes(text.as_slice());
    Ok(text)
}
