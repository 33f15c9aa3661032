//! The generated application.

ghost use Rattle.std.specs.Prelude.{◌≡◌, [], ◌∷◌, codes};
ghost use Rattle.ng_meaning.specs.Generated.{generated_lines};

/// Each click checks its row and the list of the rows alone, and makes nothing.
pub fn rows_are_checked_alone()
    ensures one { generated_lines 1 ≡ codes "gen 1" ∷ codes "checks 4" ∷ codes "made 4" ∷ codes "bytes 50" ∷ codes "end 1" ∷ [] }
    ensures three { generated_lines 3 ≡ codes "gen 3" ∷ codes "checks 10" ∷ codes "made 10" ∷ codes "bytes 116" ∷ codes "end 3" ∷ [] }
{}
