//! Templates that outlets show.

ghost use Rattle.std.specs.Prelude.{◌≡◌, [], ◌∷◌, true, false, codes};
ghost use Rattle.ng_meaning.specs.Lines.{lines};
ghost use Rattle.ng_rows.specs.Build.{pages};
ghost use Rattle.ng_rows.specs.Outlets.{contexts};

/// An outlet shows its own nodes first, and then the template with the members of the context; without a context its variables are null.
pub fn outlets_hand_on_contexts()
    ensures every { lines contexts pages true []
        ≡ codes "page 0"
        ∷ codes "<r-r><b></b>7a</r-r>"
        ∷ codes "end 0"
        ∷ [] }
    ensures due { lines contexts pages false []
        ≡ codes "page 0"
        ∷ codes "<r-r><b></b>7a</r-r>"
        ∷ codes "end 0"
        ∷ [] }
{}
