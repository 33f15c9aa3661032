//! Attributes.

ghost use Rattle.std.specs.Prelude.{◌≡◌, [], ◌∷◌, true, false, codes};
ghost use Rattle.ng_meaning.specs.Lines.{lines};
ghost use Rattle.ng_rows.specs.Bound.{address, classes, hidden};
ghost use Rattle.ng_rows.specs.Build.{click, pages, full};

/// An address that is a script is printed as an unsafe one, after the static attributes.
pub fn script_is_unsafe()
    ensures every { lines address pages true []
        ≡ codes "page 0"
        ∷ codes "<r-r><a title=\"1 &lt; 2\" href=\"unsafe:JaVaScript:x\">&amp;</a></r-r>"
        ∷ codes "end 0"
        ∷ [] }
    ensures due { lines address pages false []
        ≡ codes "page 0"
        ∷ codes "<r-r><a title=\"1 &lt; 2\" href=\"unsafe:JaVaScript:x\">&amp;</a></r-r>"
        ∷ codes "end 0"
        ∷ [] }
    ensures checked { lines address full false []
        ≡ codes "check . R"
        ∷ codes "page 0"
        ∷ codes "<r-r><a title=\"1 &lt; 2\" href=\"unsafe:JaVaScript:x\">&amp;</a></r-r>"
        ∷ codes "inst . R"
        ∷ codes "end 0"
        ∷ [] }
{}

/// Null and false make a property absent; `[class.c]` takes a static class away; a style has its unit.
pub fn absent_values()
    ensures every { lines classes pages true []
        ≡ codes "page 0"
        ∷ codes "<r-r><input class=\"a\" style=\"width:5px\"></r-r>"
        ∷ codes "end 0"
        ∷ [] }
    ensures due { lines classes pages false []
        ≡ codes "page 0"
        ∷ codes "<r-r><input class=\"a\" style=\"width:5px\"></r-r>"
        ∷ codes "end 0"
        ∷ [] }
    ensures checked { lines classes full false []
        ≡ codes "check . R"
        ∷ codes "page 0"
        ∷ codes "<r-r><input class=\"a\" style=\"width:5px\"></r-r>"
        ∷ codes "inst . R"
        ∷ codes "end 0"
        ∷ [] }
{}

/// A truth property is printed with the empty value, or not at all.
pub fn truth_property()
    ensures every { lines hidden pages true (click (codes "b") 1 ∷ [])
        ≡ codes "page 0"
        ∷ codes "<r-r><b hidden=\"\">x</b></r-r>"
        ∷ codes "event 1 ran"
        ∷ codes "page 1"
        ∷ codes "<r-r><b>x</b></r-r>"
        ∷ codes "end 1"
        ∷ [] }
    ensures due { lines hidden pages false (click (codes "b") 1 ∷ [])
        ≡ codes "page 0"
        ∷ codes "<r-r><b hidden=\"\">x</b></r-r>"
        ∷ codes "event 1 ran"
        ∷ codes "page 1"
        ∷ codes "<r-r><b>x</b></r-r>"
        ∷ codes "end 1"
        ∷ [] }
    ensures checked { lines hidden full false (click (codes "b") 1 ∷ [])
        ≡ codes "check . R"
        ∷ codes "page 0"
        ∷ codes "<r-r><b hidden=\"\">x</b></r-r>"
        ∷ codes "inst . R"
        ∷ codes "event 1 ran"
        ∷ codes "check . R"
        ∷ codes "page 1"
        ∷ codes "<r-r><b>x</b></r-r>"
        ∷ codes "inst . R"
        ∷ codes "end 1"
        ∷ [] }
{}
