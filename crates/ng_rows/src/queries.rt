//! Queries.

ghost use Rattle.std.specs.Prelude.{◌≡◌, [], ◌∷◌, true, false, codes};
ghost use Rattle.ng_meaning.specs.Lines.{lines};
ghost use Rattle.ng_rows.specs.Build.{reports, full};
ghost use Rattle.ng_rows.specs.Queries.{queried};

/// Results stand in template order, those of an outlet where its `ng-template` is declared. Without `descendants` an element hides what it encloses.
pub fn results_in_template_order()
    ensures every { lines queried reports true []
        ≡ codes "page 0"
        ∷ codes "<r-r><q-q><c-c><b>0</b></c-c><c-c><b>0</b></c-c><div><c-c><b>0</b></c-c></div></q-q><i></i><b></b></r-r>"
        ∷ codes "inst . R"
        ∷ codes "query v = ./9!7:8, .:10"
        ∷ codes "inst ./0 Q"
        ∷ codes "query a = ./2, ./3?0/4"
        ∷ codes "query d = ./2, ./3?0/4, ./6"
        ∷ codes "inst ./2 C"
        ∷ codes "inst ./3?0/4 C"
        ∷ codes "inst ./6 C"
        ∷ codes "end 0"
        ∷ [] }
    ensures due { lines queried reports false []
        ≡ codes "page 0"
        ∷ codes "<r-r><q-q><c-c><b>0</b></c-c><c-c><b>0</b></c-c><div><c-c><b>0</b></c-c></div></q-q><i></i><b></b></r-r>"
        ∷ codes "inst . R"
        ∷ codes "query v = ./9!7:8, .:10"
        ∷ codes "inst ./0 Q"
        ∷ codes "query a = ./2, ./3?0/4"
        ∷ codes "query d = ./2, ./3?0/4, ./6"
        ∷ codes "inst ./2 C"
        ∷ codes "inst ./3?0/4 C"
        ∷ codes "inst ./6 C"
        ∷ codes "end 0"
        ∷ [] }
    ensures checked { lines queried full false []
        ≡ codes "check . R"
        ∷ codes "check ./3?0/4 C"
        ∷ codes "check ./0 Q"
        ∷ codes "check ./2 C"
        ∷ codes "check ./6 C"
        ∷ codes "page 0"
        ∷ codes "<r-r><q-q><c-c><b>0</b></c-c><c-c><b>0</b></c-c><div><c-c><b>0</b></c-c></div></q-q><i></i><b></b></r-r>"
        ∷ codes "inst . R"
        ∷ codes "query v = ./9!7:8, .:10"
        ∷ codes "inst ./0 Q"
        ∷ codes "query a = ./2, ./3?0/4"
        ∷ codes "query d = ./2, ./3?0/4, ./6"
        ∷ codes "inst ./2 C"
        ∷ codes "inst ./3?0/4 C"
        ∷ codes "inst ./6 C"
        ∷ codes "end 0"
        ∷ [] }
{}
