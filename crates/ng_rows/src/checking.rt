//! Which instances a pass checks.

ghost use Rattle.std.specs.Prelude.{◌≡◌, [], ◌∷◌, true, false, codes};
ghost use Rattle.ng_meaning.specs.Lines.{lines};
ghost use Rattle.ng_rows.specs.Build.{click, call, pages, traces, full};
ghost use Rattle.ng_rows.specs.Checking.{called_child, shared_signal};

/// A method that is called by a reference marks nothing: a component that is `onpush` shows what it wrote only where every instance is checked.
pub fn call_marks_nothing()
    ensures every { lines called_child pages true (click (codes "u") 1 ∷ [])
        ≡ codes "page 0"
        ∷ codes "<r-r><u>x</u><k-k>0</k-k></r-r>"
        ∷ codes "event 1 ran"
        ∷ codes "page 1"
        ∷ codes "<r-r><u>x</u><k-k>1</k-k></r-r>"
        ∷ codes "end 1"
        ∷ [] }
    ensures due { lines called_child pages false (click (codes "u") 1 ∷ [])
        ≡ codes "page 0"
        ∷ codes "<r-r><u>x</u><k-k>0</k-k></r-r>"
        ∷ codes "event 1 ran"
        ∷ codes "page 1"
        ∷ codes "<r-r><u>x</u><k-k>0</k-k></r-r>"
        ∷ codes "end 1"
        ∷ [] }
    ensures checked { lines called_child full false (click (codes "u") 1 ∷ [])
        ≡ codes "check . R"
        ∷ codes "check ./2 K"
        ∷ codes "page 0"
        ∷ codes "<r-r><u>x</u><k-k>0</k-k></r-r>"
        ∷ codes "inst . R"
        ∷ codes "inst ./2 K"
        ∷ codes "event 1 ran"
        ∷ codes "check . R"
        ∷ codes "page 1"
        ∷ codes "<r-r><u>x</u><k-k>0</k-k></r-r>"
        ∷ codes "inst . R"
        ∷ codes "inst ./2 K"
        ∷ codes "end 1"
        ∷ [] }
    ensures checked_every { lines called_child full true (click (codes "u") 1 ∷ [])
        ≡ codes "check . R"
        ∷ codes "check ./2 K"
        ∷ codes "page 0"
        ∷ codes "<r-r><u>x</u><k-k>0</k-k></r-r>"
        ∷ codes "inst . R"
        ∷ codes "inst ./2 K"
        ∷ codes "event 1 ran"
        ∷ codes "check . R"
        ∷ codes "check ./2 K"
        ∷ codes "page 1"
        ∷ codes "<r-r><u>x</u><k-k>1</k-k></r-r>"
        ∷ codes "inst . R"
        ∷ codes "inst ./2 K"
        ∷ codes "end 1"
        ∷ [] }
{}

/// A signal that is set checks the instances that read it, also behind a getter, and no others.
pub fn signal_checks_its_readers()
    ensures due { lines shared_signal traces false (call (codes "Store") (codes "up") ∷ [])
        ≡ codes "check . R"
        ∷ codes "check ./0 M"
        ∷ codes "check ./0/0 A"
        ∷ codes "check ./1 B"
        ∷ codes "page 0"
        ∷ codes "<r-r><m-m><a-a>1</a-a></m-m><b-b>0</b-b></r-r>"
        ∷ codes "event 1 ran"
        ∷ codes "check ./0/0 A"
        ∷ codes "check ./1 B"
        ∷ codes "page 1"
        ∷ codes "<r-r><m-m><a-a>2</a-a></m-m><b-b>1</b-b></r-r>"
        ∷ codes "end 1"
        ∷ [] }
    ensures reported { lines shared_signal full false (call (codes "Store") (codes "up") ∷ [])
        ≡ codes "check . R"
        ∷ codes "check ./0 M"
        ∷ codes "check ./0/0 A"
        ∷ codes "check ./1 B"
        ∷ codes "page 0"
        ∷ codes "<r-r><m-m><a-a>1</a-a></m-m><b-b>0</b-b></r-r>"
        ∷ codes "inst . R"
        ∷ codes "inst ./0 M"
        ∷ codes "inst ./0/0 A"
        ∷ codes "inject s = env root Store"
        ∷ codes "inst ./1 B"
        ∷ codes "inject s = env root Store"
        ∷ codes "event 1 ran"
        ∷ codes "check ./0/0 A"
        ∷ codes "check ./1 B"
        ∷ codes "page 1"
        ∷ codes "<r-r><m-m><a-a>2</a-a></m-m><b-b>1</b-b></r-r>"
        ∷ codes "inst . R"
        ∷ codes "inst ./0 M"
        ∷ codes "inst ./0/0 A"
        ∷ codes "inject s = env root Store"
        ∷ codes "inst ./1 B"
        ∷ codes "inject s = env root Store"
        ∷ codes "end 1"
        ∷ [] }
    ensures every { lines shared_signal full true (call (codes "Store") (codes "up") ∷ [])
        ≡ codes "check . R"
        ∷ codes "check ./0 M"
        ∷ codes "check ./0/0 A"
        ∷ codes "check ./1 B"
        ∷ codes "page 0"
        ∷ codes "<r-r><m-m><a-a>1</a-a></m-m><b-b>0</b-b></r-r>"
        ∷ codes "inst . R"
        ∷ codes "inst ./0 M"
        ∷ codes "inst ./0/0 A"
        ∷ codes "inject s = env root Store"
        ∷ codes "inst ./1 B"
        ∷ codes "inject s = env root Store"
        ∷ codes "event 1 ran"
        ∷ codes "check . R"
        ∷ codes "check ./0 M"
        ∷ codes "check ./0/0 A"
        ∷ codes "check ./1 B"
        ∷ codes "page 1"
        ∷ codes "<r-r><m-m><a-a>2</a-a></m-m><b-b>1</b-b></r-r>"
        ∷ codes "inst . R"
        ∷ codes "inst ./0 M"
        ∷ codes "inst ./0/0 A"
        ∷ codes "inject s = env root Store"
        ∷ codes "inst ./1 B"
        ∷ codes "inject s = env root Store"
        ∷ codes "end 1"
        ∷ [] }
{}
