ghost use Rattle.std.specs.Prelude.{◌≡◌, Ok, IfOk, IfSome};
ghost use Rattle.std.specs.Result.{result_ok};
ghost use Rattle.sb_model.specs.Names.{name_of};

use crate::draft::Listed;
use sb_model::{Bytes, ListName, OutOfMemory, read_list_name, write_list_name};
use std::alloc::Global;
use std::marker::Model;

/// The name of a list with its text, so that a line which names the list again need not be read
/// word by word. Contracts see it as the name.
#[derive(Debug, Drop)]
pub(crate) struct KnownName {
    name: ListName,
    text: Bytes,
}

impl Model for KnownName {
    ghost use Rattle.std.specs.Prelude.{◌≡◌, Ok};
    ghost use Rattle.sb_model.specs.declared.names.ListName.{ListName};
    ghost use Rattle.sb_model.specs.Names.{name_of};

    ghost Value = { ListName };

    ghost view = { λ known. known.name };

    ghost invariant = { λ known. name_of known.text ≡ Ok known.name };
}

impl KnownName {
    pub fn new(alloc: Global, name: ListName) -> Result<KnownName, OutOfMemory>
        ensures { IfOk result (λ known. known ≡ name) }
    {
        let text = write_list_name(alloc, name)?;
        Ok(KnownName { name, text })
    }

    // The name, where a text is the one that is kept.
    fn if_named(&self, text: &[u8]) -> Option<ListName>
        ensures { IfSome result (λ name. name_of text.now ≡ Ok name) }
    {
        if self.text.as_slice() == text {
            Some(self.name)
        } else {
            None
        }
    }
}

// The name of the first list whose text this is.
fn known_name(lists: &[Listed], text: &[u8]) -> Option<ListName>
    ensures { IfSome result (λ name. name_of text.now ≡ Ok name) }
{
    for listed in lists {
        if let Some(name) = listed.known.if_named(text) {
            return Some(name);
        }
    }
    None
}

/// Reads a list's name, first by the names that are known.
pub(crate) fn read_name(lists: &[Listed], text: &[u8]) -> Option<ListName>
    ensures { result ≡ result_ok (name_of text.now) }
{
    if let Some(name) = known_name(lists, text) {
        return Some(name);
    }
    match read_list_name(text) {
        Ok(name) => Some(name),
        Err(_) => None,
    }
}
