ghost use Rattle.std.specs.Prelude.{◌≡◌, IfSome, OnOk};
ghost use Rattle.sb_model.specs.Names.{same_name};
ghost use Rattle.sb_model.specs.History.{History};
ghost use Rattle.list_versions.specs.Stretches.{AreStretches};
ghost use Rattle.delta_server.specs.Swept.{AreOf};

use list_versions::Stretch;
use sb_model::{ListName, OutOfMemory, names_go_by_their_codes};
use std::alloc::Global;

/// A list with its stretches.
#[derive(Drop)]
pub(crate) struct SweptList {
    pub(crate) name: ListName,
    pub(crate) stretches: Vec<Stretch>,
}

/// The lists that were swept for an item of a request, for the items that follow.
#[derive(Drop)]
pub(crate) struct Swept {
    pub(crate) lists: Vec<SweptList>,
}

// Whether this is the list of a name.
fn is_list(swept: &SweptList, name: ListName) -> bool
    ensures { result ≡ same_name swept.now.name name }
{
    swept.name == name
}

impl Swept {
    /// No list.
    pub(crate) fn new(alloc: Global) -> Swept
        ensures { (versions : History) → AreOf versions result }
    {
        Swept {
            lists: Vec::new(alloc),
        }
    }

    /// The stretches of a list that was swept.
    pub(crate) fn find(&self, list: ListName) -> Option<&[Stretch]>
        ensures { (versions : History) → AreOf versions self.now
            → IfSome result (λ stretches. AreStretches versions list stretches.now) }
    {
        names_go_by_their_codes();
        for swept in &self.lists {
            if is_list(swept, list) {
                return Some(swept.stretches.as_slice());
            }
        }
        None
    }

    /// Keeps the stretches of a list.
    pub(crate) fn keep(
        &mut self,
        name: ListName,
        stretches: Vec<Stretch>,
    ) -> Result<(), OutOfMemory>
        ensures { OnOk result ((versions : History) → AreStretches versions name stretches.items
            → AreOf versions self.old → AreOf versions self.new) }
    {
        self.lists.push(SweptList { name, stretches })?;
        Ok(())
    }
}
