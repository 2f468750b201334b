ghost use Rattle.std.specs.Prelude.{◌≡◌, ℕ, List, ◌++◌, All, Option, Some};
ghost use Rattle.sb_outside.specs.Outside.{next_piece};
ghost use Rattle.input_lines.specs.Input.{GivesPast};
ghost use Rattle.input_lines.specs.Lines.{HasNoNewline, IsInputWithinLimits, joined_lines, last_newline, lines_of};

/// What the lines of an input are: none has a newline in it, and joined, each with its newline, they are the
/// input, and a newline where the input ends in a line without one.
pub fn lines_are_the_input()
    ensures plain { (input : List ℕ) → All HasNoNewline (lines_of input) }
    ensures whole { (input : List ℕ) → joined_lines (lines_of input) ≡ input ++ last_newline input }
{}

/// A front of an input that is within the limits is within them. So a source that tells such an input does not give bytes
/// that pass one.
pub fn fronts_are_within()
    ensures fronts { (front more : List ℕ) → IsInputWithinLimits (front ++ more) → IsInputWithinLimits front }
    ensures told { (before after : Option (List (List ℕ))) (pieces : List (List ℕ)) → before ≡ Some pieces
        → IsInputWithinLimits (next_piece pieces) → ¬ (GivesPast before after) }
{}
