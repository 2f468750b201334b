ghost use Rattle.std.specs.Prelude.{◌≡◌, [], ◌∷◌, ◌++◌, ◌==◌, if◌then◌else◌, OnOk};
ghost use Rattle.std.specs.List.{list_any};

use sb_model::OutOfMemory;

/// Adds a place, unless it is there already.
pub fn push_new(places: &mut Vec<usize>, place: usize) -> Result<(), OutOfMemory>
    ensures { OnOk result (places.new.items ≡ (if list_any (λ p. p == place) places.old.items
        then places.old.items else places.old.items ++ place ∷ [])) }
{
    if !places.contains(&place) {
        places.push(place)?;
    }
    Ok(())
}
