ghost use Rattle.std.specs.Prelude.{◌≡◌, ◌↔◌, true, Contains};
ghost use Rattle.std.specs.List.Sorted.{IsStrictlySortedBy};
ghost use Rattle.sb_model.specs.History.{History};
ghost use Rattle.sb_model.specs.Names.{name_cmp};
ghost use Rattle.sb_model.specs.declared.names.ListName.{ListName};
ghost use Rattle.answering_lists.specs.Lists.{answered_names, is_answered};

/// The names for which lists answer are exactly these, and they stand in the order of names, each once.
pub fn answered_names_are_those_of_lists()
    ensures order { (history : History) → IsStrictlySortedBy name_cmp (answered_names history) }
    ensures names { (history : History) (name : ListName)
        → Contains (answered_names history) name ↔ (is_answered history name ≡ true) }
{}
