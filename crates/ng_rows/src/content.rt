//! Content.

ghost use Rattle.std.specs.Prelude.{◌≡◌, [], ◌∷◌, true, false, codes};
ghost use Rattle.ng_meaning.specs.Lines.{lines};
ghost use Rattle.ng_rows.specs.Build.{click, pages, reports, traces, full};
ghost use Rattle.ng_rows.specs.Content.{handed_block, hidden_content, slots};

/// A component that is not checked shows the new content that it is handed.
pub fn kept_component_takes_content()
    ensures due { lines handed_block traces false (click (codes "u") 1 ∷ [])
        ≡ codes "check . R"
        ∷ codes "check ./2 P"
        ∷ codes "page 0"
        ∷ codes "<r-r><u>x</u><p-p><div></div></p-p></r-r>"
        ∷ codes "event 1 ran"
        ∷ codes "check . R"
        ∷ codes "page 1"
        ∷ codes "<r-r><u>x</u><p-p><div><i>in</i></div></p-p></r-r>"
        ∷ codes "end 1"
        ∷ [] }
    ensures reported { lines handed_block full false (click (codes "u") 1 ∷ [])
        ≡ codes "check . R"
        ∷ codes "check ./2 P"
        ∷ codes "page 0"
        ∷ codes "<r-r><u>x</u><p-p><div></div></p-p></r-r>"
        ∷ codes "inst . R"
        ∷ codes "inst ./2 P"
        ∷ codes "event 1 ran"
        ∷ codes "check . R"
        ∷ codes "page 1"
        ∷ codes "<r-r><u>x</u><p-p><div><i>in</i></div></p-p></r-r>"
        ∷ codes "inst . R"
        ∷ codes "inst ./2 P"
        ∷ codes "end 1"
        ∷ [] }
    ensures every { lines handed_block full true (click (codes "u") 1 ∷ [])
        ≡ codes "check . R"
        ∷ codes "check ./2 P"
        ∷ codes "page 0"
        ∷ codes "<r-r><u>x</u><p-p><div></div></p-p></r-r>"
        ∷ codes "inst . R"
        ∷ codes "inst ./2 P"
        ∷ codes "event 1 ran"
        ∷ codes "check . R"
        ∷ codes "check ./2 P"
        ∷ codes "page 1"
        ∷ codes "<r-r><u>x</u><p-p><div><i>in</i></div></p-p></r-r>"
        ∷ codes "inst . R"
        ∷ codes "inst ./2 P"
        ∷ codes "end 1"
        ∷ [] }
{}

/// Content that its component hides lives on.
pub fn hidden_content_lives_on()
    ensures every { lines hidden_content reports true (click (codes "b") 1 ∷ click (codes "u") 1 ∷ click (codes "u") 1 ∷ [])
        ≡ codes "page 0"
        ∷ codes "<r-r><x-x><u>t</u><c-c><b>0</b></c-c></x-x></r-r>"
        ∷ codes "inst . R"
        ∷ codes "inst ./0 X"
        ∷ codes "inst ./1 C"
        ∷ codes "event 1 ran"
        ∷ codes "page 1"
        ∷ codes "<r-r><x-x><u>t</u><c-c><b>1</b></c-c></x-x></r-r>"
        ∷ codes "inst . R"
        ∷ codes "inst ./0 X"
        ∷ codes "inst ./1 C"
        ∷ codes "event 2 ran"
        ∷ codes "page 2"
        ∷ codes "<r-r><x-x><u>t</u></x-x></r-r>"
        ∷ codes "inst . R"
        ∷ codes "inst ./0 X"
        ∷ codes "inst ./1 C"
        ∷ codes "event 3 ran"
        ∷ codes "page 3"
        ∷ codes "<r-r><x-x><u>t</u><c-c><b>1</b></c-c></x-x></r-r>"
        ∷ codes "inst . R"
        ∷ codes "inst ./0 X"
        ∷ codes "inst ./1 C"
        ∷ codes "end 3"
        ∷ [] }
    ensures due { lines hidden_content reports false (click (codes "b") 1 ∷ click (codes "u") 1 ∷ click (codes "u") 1 ∷ [])
        ≡ codes "page 0"
        ∷ codes "<r-r><x-x><u>t</u><c-c><b>0</b></c-c></x-x></r-r>"
        ∷ codes "inst . R"
        ∷ codes "inst ./0 X"
        ∷ codes "inst ./1 C"
        ∷ codes "event 1 ran"
        ∷ codes "page 1"
        ∷ codes "<r-r><x-x><u>t</u><c-c><b>1</b></c-c></x-x></r-r>"
        ∷ codes "inst . R"
        ∷ codes "inst ./0 X"
        ∷ codes "inst ./1 C"
        ∷ codes "event 2 ran"
        ∷ codes "page 2"
        ∷ codes "<r-r><x-x><u>t</u></x-x></r-r>"
        ∷ codes "inst . R"
        ∷ codes "inst ./0 X"
        ∷ codes "inst ./1 C"
        ∷ codes "event 3 ran"
        ∷ codes "page 3"
        ∷ codes "<r-r><x-x><u>t</u><c-c><b>1</b></c-c></x-x></r-r>"
        ∷ codes "inst . R"
        ∷ codes "inst ./0 X"
        ∷ codes "inst ./1 C"
        ∷ codes "end 3"
        ∷ [] }
    ensures checked { lines hidden_content full false (click (codes "b") 1 ∷ click (codes "u") 1 ∷ click (codes "u") 1 ∷ [])
        ≡ codes "check . R"
        ∷ codes "check ./0 X"
        ∷ codes "check ./1 C"
        ∷ codes "page 0"
        ∷ codes "<r-r><x-x><u>t</u><c-c><b>0</b></c-c></x-x></r-r>"
        ∷ codes "inst . R"
        ∷ codes "inst ./0 X"
        ∷ codes "inst ./1 C"
        ∷ codes "event 1 ran"
        ∷ codes "check . R"
        ∷ codes "check ./0 X"
        ∷ codes "check ./1 C"
        ∷ codes "page 1"
        ∷ codes "<r-r><x-x><u>t</u><c-c><b>1</b></c-c></x-x></r-r>"
        ∷ codes "inst . R"
        ∷ codes "inst ./0 X"
        ∷ codes "inst ./1 C"
        ∷ codes "event 2 ran"
        ∷ codes "check . R"
        ∷ codes "check ./0 X"
        ∷ codes "check ./1 C"
        ∷ codes "page 2"
        ∷ codes "<r-r><x-x><u>t</u></x-x></r-r>"
        ∷ codes "inst . R"
        ∷ codes "inst ./0 X"
        ∷ codes "inst ./1 C"
        ∷ codes "event 3 ran"
        ∷ codes "check . R"
        ∷ codes "check ./0 X"
        ∷ codes "check ./1 C"
        ∷ codes "page 3"
        ∷ codes "<r-r><x-x><u>t</u><c-c><b>1</b></c-c></x-x></r-r>"
        ∷ codes "inst . R"
        ∷ codes "inst ./0 X"
        ∷ codes "inst ./1 C"
        ∷ codes "end 3"
        ∷ [] }
{}

/// Content goes to the slot whose selector matches, and else to the default one. A slot that is given nothing shows its fallback.
pub fn content_goes_to_slots()
    ensures every { lines slots pages true []
        ≡ codes "page 0"
        ∷ codes "<r-r><p-p><h1><i class=\"t\">a</i></h1>b</p-p><p-p><h1></h1>none</p-p></r-r>"
        ∷ codes "end 0"
        ∷ [] }
    ensures due { lines slots pages false []
        ≡ codes "page 0"
        ∷ codes "<r-r><p-p><h1><i class=\"t\">a</i></h1>b</p-p><p-p><h1></h1>none</p-p></r-r>"
        ∷ codes "end 0"
        ∷ [] }
    ensures checked { lines slots full false []
        ≡ codes "check . R"
        ∷ codes "check ./0 P"
        ∷ codes "check ./4 P"
        ∷ codes "page 0"
        ∷ codes "<r-r><p-p><h1><i class=\"t\">a</i></h1>b</p-p><p-p><h1></h1>none</p-p></r-r>"
        ∷ codes "inst . R"
        ∷ codes "inst ./0 P"
        ∷ codes "inst ./4 P"
        ∷ codes "end 0"
        ∷ [] }
{}
