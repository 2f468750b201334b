ghost use Rattle.std.specs.Prelude.{◌≡◌, ℕ, List, Some};
ghost use Rattle.http_edge.specs.Exchanges.{IsTarget};
ghost use Rattle.client_words.specs.Asking.{asking_given, target_of, Asking};

/// Whom the words have a client ask has a host and a key that stand each in one line.
pub fn asked_targets_are_sound()
    ensures { (named : List (List ℕ × List ℕ)) (asking : Asking) → asking_given named ≡ Some asking → IsTarget (target_of asking) }
{}
