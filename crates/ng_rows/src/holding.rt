//! Passes that are held back.

ghost use Rattle.std.specs.Prelude.{◌≡◌, [], ◌∷◌, true, false, pos, codes};
ghost use Rattle.ng_values.specs.declared.value.Value.TheVariants as val;
ghost use Rattle.ng_meaning.specs.Lines.{lines};
ghost use Rattle.ng_rows.specs.Build.{call, call_with, click, flush, hold, full, pages, traces};
ghost use Rattle.ng_rows.specs.Holding.{held_counter, held_signal, held_marks, held_page, held_fault, held_birth, held_input, held_view, held_bubbling, held_call};

/// Between `hold` and `flush` events act, and no pass follows. A `flush` that has nothing to do shows the page again.
pub fn passes_are_held_back()
    ensures every { lines held_counter pages true (hold ∷ click (codes "b") 1 ∷ click (codes "b") 1 ∷ flush ∷ [])
        ≡ codes "page 0"
        ∷ codes "<r-r><b>0</b></r-r>"
        ∷ codes "event 1 held"
        ∷ codes "page 1"
        ∷ codes "<r-r><b>0</b></r-r>"
        ∷ codes "event 2 ran"
        ∷ codes "page 2"
        ∷ codes "<r-r><b>0</b></r-r>"
        ∷ codes "event 3 ran"
        ∷ codes "page 3"
        ∷ codes "<r-r><b>0</b></r-r>"
        ∷ codes "event 4 flushed"
        ∷ codes "page 4"
        ∷ codes "<r-r><b>2</b></r-r>"
        ∷ codes "end 4"
        ∷ [] }
    ensures idle { lines held_counter full false (flush ∷ hold ∷ hold ∷ flush ∷ [])
        ≡ codes "check . R"
        ∷ codes "page 0"
        ∷ codes "<r-r><b>0</b></r-r>"
        ∷ codes "inst . R"
        ∷ codes "event 1 flushed"
        ∷ codes "page 1"
        ∷ codes "<r-r><b>0</b></r-r>"
        ∷ codes "inst . R"
        ∷ codes "event 2 held"
        ∷ codes "page 2"
        ∷ codes "<r-r><b>0</b></r-r>"
        ∷ codes "inst . R"
        ∷ codes "event 3 held"
        ∷ codes "page 3"
        ∷ codes "<r-r><b>0</b></r-r>"
        ∷ codes "inst . R"
        ∷ codes "event 4 flushed"
        ∷ codes "page 4"
        ∷ codes "<r-r><b>0</b></r-r>"
        ∷ codes "inst . R"
        ∷ codes "end 4"
        ∷ [] }
    ensures left { lines held_counter pages false (hold ∷ click (codes "b") 1 ∷ [])
        ≡ codes "page 0"
        ∷ codes "<r-r><b>0</b></r-r>"
        ∷ codes "event 1 held"
        ∷ codes "page 1"
        ∷ codes "<r-r><b>0</b></r-r>"
        ∷ codes "event 2 ran"
        ∷ codes "page 2"
        ∷ codes "<r-r><b>0</b></r-r>"
        ∷ codes "end 2"
        ∷ [] }
    ensures one_flush { lines held_counter pages false (hold ∷ hold ∷ click (codes "b") 1 ∷ flush ∷ click (codes "b") 1 ∷ [])
        ≡ codes "page 0"
        ∷ codes "<r-r><b>0</b></r-r>"
        ∷ codes "event 1 held"
        ∷ codes "page 1"
        ∷ codes "<r-r><b>0</b></r-r>"
        ∷ codes "event 2 held"
        ∷ codes "page 2"
        ∷ codes "<r-r><b>0</b></r-r>"
        ∷ codes "event 3 ran"
        ∷ codes "page 3"
        ∷ codes "<r-r><b>0</b></r-r>"
        ∷ codes "event 4 flushed"
        ∷ codes "page 4"
        ∷ codes "<r-r><b>1</b></r-r>"
        ∷ codes "event 5 ran"
        ∷ codes "page 5"
        ∷ codes "<r-r><b>2</b></r-r>"
        ∷ codes "end 5"
        ∷ [] }
    ensures no_target { lines held_counter traces false (hold ∷ click (codes "u") 1 ∷ flush ∷ [])
        ≡ codes "check . R"
        ∷ codes "page 0"
        ∷ codes "<r-r><b>0</b></r-r>"
        ∷ codes "event 1 held"
        ∷ codes "page 1"
        ∷ codes "<r-r><b>0</b></r-r>"
        ∷ codes "event 2 no-target"
        ∷ codes "page 2"
        ∷ codes "<r-r><b>0</b></r-r>"
        ∷ codes "event 3 flushed"
        ∷ codes "page 3"
        ∷ codes "<r-r><b>0</b></r-r>"
        ∷ codes "end 3"
        ∷ [] }
{}

/// A signal that is set and set back before the pass makes nothing due, and one that differs then checks its readers.
pub fn signal_set_back_checks_nothing()
    ensures set_back { lines held_signal traces false (hold ∷ call_with (codes "S") (codes "put") (val.Int (pos 1) ∷ []) ∷ call_with (codes "S") (codes "put") (val.Int (pos 0) ∷ []) ∷ flush ∷ [])
        ≡ codes "check . R"
        ∷ codes "page 0"
        ∷ codes "<r-r>0</r-r>"
        ∷ codes "event 1 held"
        ∷ codes "page 1"
        ∷ codes "<r-r>0</r-r>"
        ∷ codes "event 2 ran"
        ∷ codes "page 2"
        ∷ codes "<r-r>0</r-r>"
        ∷ codes "event 3 ran"
        ∷ codes "page 3"
        ∷ codes "<r-r>0</r-r>"
        ∷ codes "event 4 flushed"
        ∷ codes "page 4"
        ∷ codes "<r-r>0</r-r>"
        ∷ codes "end 4"
        ∷ [] }
    ensures set { lines held_signal traces false (hold ∷ call_with (codes "S") (codes "put") (val.Int (pos 1) ∷ []) ∷ call_with (codes "S") (codes "put") (val.Int (pos 2) ∷ []) ∷ flush ∷ [])
        ≡ codes "check . R"
        ∷ codes "page 0"
        ∷ codes "<r-r>0</r-r>"
        ∷ codes "event 1 held"
        ∷ codes "page 1"
        ∷ codes "<r-r>0</r-r>"
        ∷ codes "event 2 ran"
        ∷ codes "page 2"
        ∷ codes "<r-r>0</r-r>"
        ∷ codes "event 3 ran"
        ∷ codes "page 3"
        ∷ codes "<r-r>0</r-r>"
        ∷ codes "event 4 flushed"
        ∷ codes "check . R"
        ∷ codes "page 4"
        ∷ codes "<r-r>2</r-r>"
        ∷ codes "end 4"
        ∷ [] }
{}

/// Marks pile up until the pass, and are no matter of values: a field that is set back leaves its instance due. Those of an event with a fault count too.
pub fn marks_pile_up()
    ensures set_back { lines held_marks traces false (hold ∷ click (codes "b") 1 ∷ click (codes "i") 1 ∷ flush ∷ [])
        ≡ codes "check . R"
        ∷ codes "check ./0 K"
        ∷ codes "check ./1 K"
        ∷ codes "page 0"
        ∷ codes "<r-r><k-k><b>0</b><i>-</i><u>/</u></k-k><k-k><b>0</b><i>-</i><u>/</u></k-k></r-r>"
        ∷ codes "event 1 held"
        ∷ codes "page 1"
        ∷ codes "<r-r><k-k><b>0</b><i>-</i><u>/</u></k-k><k-k><b>0</b><i>-</i><u>/</u></k-k></r-r>"
        ∷ codes "event 2 ran"
        ∷ codes "page 2"
        ∷ codes "<r-r><k-k><b>0</b><i>-</i><u>/</u></k-k><k-k><b>0</b><i>-</i><u>/</u></k-k></r-r>"
        ∷ codes "event 3 ran"
        ∷ codes "page 3"
        ∷ codes "<r-r><k-k><b>0</b><i>-</i><u>/</u></k-k><k-k><b>0</b><i>-</i><u>/</u></k-k></r-r>"
        ∷ codes "event 4 flushed"
        ∷ codes "check . R"
        ∷ codes "check ./0 K"
        ∷ codes "page 4"
        ∷ codes "<r-r><k-k><b>0</b><i>-</i><u>/</u></k-k><k-k><b>0</b><i>-</i><u>/</u></k-k></r-r>"
        ∷ codes "end 4"
        ∷ [] }
    ensures faults { lines held_marks traces false (hold ∷ click (codes "b") 1 ∷ click (codes "u") 2 ∷ flush ∷ [])
        ≡ codes "check . R"
        ∷ codes "check ./0 K"
        ∷ codes "check ./1 K"
        ∷ codes "page 0"
        ∷ codes "<r-r><k-k><b>0</b><i>-</i><u>/</u></k-k><k-k><b>0</b><i>-</i><u>/</u></k-k></r-r>"
        ∷ codes "event 1 held"
        ∷ codes "page 1"
        ∷ codes "<r-r><k-k><b>0</b><i>-</i><u>/</u></k-k><k-k><b>0</b><i>-</i><u>/</u></k-k></r-r>"
        ∷ codes "event 2 ran"
        ∷ codes "page 2"
        ∷ codes "<r-r><k-k><b>0</b><i>-</i><u>/</u></k-k><k-k><b>0</b><i>-</i><u>/</u></k-k></r-r>"
        ∷ codes "event 3 fault DivideByZero"
        ∷ codes "page 3"
        ∷ codes "<r-r><k-k><b>0</b><i>-</i><u>/</u></k-k><k-k><b>0</b><i>-</i><u>/</u></k-k></r-r>"
        ∷ codes "event 4 flushed"
        ∷ codes "check . R"
        ∷ codes "check ./0 K"
        ∷ codes "check ./1 K"
        ∷ codes "page 4"
        ∷ codes "<r-r><k-k><b>1</b><i>-</i><u>/</u></k-k><k-k><b>0</b><i>-</i><u>/</u></k-k></r-r>"
        ∷ codes "end 4"
        ∷ [] }
{}

/// While passes are held back events come to the page as it was shown: an element that is to go can still be clicked.
pub fn held_events_see_the_shown_page()
    ensures every { lines held_page pages true (hold ∷ click (codes "b") 1 ∷ click (codes "b") 1 ∷ flush ∷ click (codes "b") 1 ∷ [])
        ≡ codes "page 0"
        ∷ codes "<r-r><b>x</b>0</r-r>"
        ∷ codes "event 1 held"
        ∷ codes "page 1"
        ∷ codes "<r-r><b>x</b>0</r-r>"
        ∷ codes "event 2 ran"
        ∷ codes "page 2"
        ∷ codes "<r-r><b>x</b>0</r-r>"
        ∷ codes "event 3 ran"
        ∷ codes "page 3"
        ∷ codes "<r-r><b>x</b>0</r-r>"
        ∷ codes "event 4 flushed"
        ∷ codes "page 4"
        ∷ codes "<r-r>2</r-r>"
        ∷ codes "event 5 no-target"
        ∷ codes "page 5"
        ∷ codes "<r-r>2</r-r>"
        ∷ codes "end 5"
        ∷ [] }
    ensures due { lines held_page pages false (hold ∷ click (codes "b") 1 ∷ click (codes "b") 1 ∷ flush ∷ click (codes "b") 1 ∷ [])
        ≡ codes "page 0"
        ∷ codes "<r-r><b>x</b>0</r-r>"
        ∷ codes "event 1 held"
        ∷ codes "page 1"
        ∷ codes "<r-r><b>x</b>0</r-r>"
        ∷ codes "event 2 ran"
        ∷ codes "page 2"
        ∷ codes "<r-r><b>x</b>0</r-r>"
        ∷ codes "event 3 ran"
        ∷ codes "page 3"
        ∷ codes "<r-r><b>x</b>0</r-r>"
        ∷ codes "event 4 flushed"
        ∷ codes "page 4"
        ∷ codes "<r-r>2</r-r>"
        ∷ codes "event 5 no-target"
        ∷ codes "page 5"
        ∷ codes "<r-r>2</r-r>"
        ∷ codes "end 5"
        ∷ [] }
{}

/// A fault of the pass that a `flush` lets follow ends the run.
pub fn flush_may_fault()
    ensures every { lines held_fault pages true (hold ∷ click (codes "b") 1 ∷ flush ∷ click (codes "b") 1 ∷ [])
        ≡ codes "page 0"
        ∷ codes "<r-r><b>6</b></r-r>"
        ∷ codes "event 1 held"
        ∷ codes "page 1"
        ∷ codes "<r-r><b>6</b></r-r>"
        ∷ codes "event 2 ran"
        ∷ codes "page 2"
        ∷ codes "<r-r><b>6</b></r-r>"
        ∷ codes "event 3 flushed"
        ∷ codes "fault DivideByZero at 4:36 in R ."
        ∷ [] }
    ensures due { lines held_fault pages false (hold ∷ click (codes "b") 1 ∷ flush ∷ click (codes "b") 1 ∷ [])
        ≡ codes "page 0"
        ∷ codes "<r-r><b>6</b></r-r>"
        ∷ codes "event 1 held"
        ∷ codes "page 1"
        ∷ codes "<r-r><b>6</b></r-r>"
        ∷ codes "event 2 ran"
        ∷ codes "page 2"
        ∷ codes "<r-r><b>6</b></r-r>"
        ∷ codes "event 3 flushed"
        ∷ codes "fault DivideByZero at 4:36 in R ."
        ∷ [] }
{}

/// A service that a held call needs is born at that call, once: the pass finds it there.
pub fn services_are_born_at_once()
    ensures every { lines held_birth pages true (hold ∷ call (codes "S") (codes "up") ∷ click (codes "b") 1 ∷ call (codes "S") (codes "up") ∷ flush ∷ [])
        ≡ codes "page 0"
        ∷ codes "<r-r><b>x</b></r-r>"
        ∷ codes "event 1 held"
        ∷ codes "page 1"
        ∷ codes "<r-r><b>x</b></r-r>"
        ∷ codes "event 2 ran"
        ∷ codes "page 2"
        ∷ codes "<r-r><b>x</b></r-r>"
        ∷ codes "event 3 ran"
        ∷ codes "page 3"
        ∷ codes "<r-r><b>x</b></r-r>"
        ∷ codes "event 4 ran"
        ∷ codes "page 4"
        ∷ codes "<r-r><b>x</b></r-r>"
        ∷ codes "event 5 flushed"
        ∷ codes "page 5"
        ∷ codes "<r-r><b>x</b><k-k>7</k-k></r-r>"
        ∷ codes "end 5"
        ∷ [] }
    ensures due { lines held_birth pages false (hold ∷ call (codes "S") (codes "up") ∷ click (codes "b") 1 ∷ call (codes "S") (codes "up") ∷ flush ∷ [])
        ≡ codes "page 0"
        ∷ codes "<r-r><b>x</b></r-r>"
        ∷ codes "event 1 held"
        ∷ codes "page 1"
        ∷ codes "<r-r><b>x</b></r-r>"
        ∷ codes "event 2 ran"
        ∷ codes "page 2"
        ∷ codes "<r-r><b>x</b></r-r>"
        ∷ codes "event 3 ran"
        ∷ codes "page 3"
        ∷ codes "<r-r><b>x</b></r-r>"
        ∷ codes "event 4 ran"
        ∷ codes "page 4"
        ∷ codes "<r-r><b>x</b></r-r>"
        ∷ codes "event 5 flushed"
        ∷ codes "page 5"
        ∷ codes "<r-r><b>x</b><k-k>7</k-k></r-r>"
        ∷ codes "end 5"
        ∷ [] }
{}

/// An input is compared at the pass: a binding whose value is set and set back gives the child nothing new.
pub fn inputs_are_compared_at_the_pass()
    ensures set_back { lines held_input traces false (hold ∷ click (codes "b") 1 ∷ click (codes "i") 1 ∷ flush ∷ [])
        ≡ codes "check . R"
        ∷ codes "check ./4 K"
        ∷ codes "page 0"
        ∷ codes "<r-r><b>x</b><i>y</i><k-k>1</k-k></r-r>"
        ∷ codes "event 1 held"
        ∷ codes "page 1"
        ∷ codes "<r-r><b>x</b><i>y</i><k-k>1</k-k></r-r>"
        ∷ codes "event 2 ran"
        ∷ codes "page 2"
        ∷ codes "<r-r><b>x</b><i>y</i><k-k>1</k-k></r-r>"
        ∷ codes "event 3 ran"
        ∷ codes "page 3"
        ∷ codes "<r-r><b>x</b><i>y</i><k-k>1</k-k></r-r>"
        ∷ codes "event 4 flushed"
        ∷ codes "check . R"
        ∷ codes "page 4"
        ∷ codes "<r-r><b>x</b><i>y</i><k-k>1</k-k></r-r>"
        ∷ codes "end 4"
        ∷ [] }
    ensures set { lines held_input traces false (hold ∷ click (codes "i") 1 ∷ click (codes "b") 1 ∷ flush ∷ [])
        ≡ codes "check . R"
        ∷ codes "check ./4 K"
        ∷ codes "page 0"
        ∷ codes "<r-r><b>x</b><i>y</i><k-k>1</k-k></r-r>"
        ∷ codes "event 1 held"
        ∷ codes "page 1"
        ∷ codes "<r-r><b>x</b><i>y</i><k-k>1</k-k></r-r>"
        ∷ codes "event 2 ran"
        ∷ codes "page 2"
        ∷ codes "<r-r><b>x</b><i>y</i><k-k>1</k-k></r-r>"
        ∷ codes "event 3 ran"
        ∷ codes "page 3"
        ∷ codes "<r-r><b>x</b><i>y</i><k-k>1</k-k></r-r>"
        ∷ codes "event 4 flushed"
        ∷ codes "check . R"
        ∷ codes "check ./4 K"
        ∷ codes "page 4"
        ∷ codes "<r-r><b>x</b><i>y</i><k-k>2</k-k></r-r>"
        ∷ codes "end 4"
        ∷ [] }
{}

/// A view that would end and come back between two passes never ended, and keeps what it holds.
pub fn views_that_come_back_stay()
    ensures every { lines held_view pages true (click (codes "b") 1 ∷ hold ∷ click (codes "u") 1 ∷ click (codes "i") 1 ∷ flush ∷ [])
        ≡ codes "page 0"
        ∷ codes "<r-r><u>-</u><i>+</i><c-c><b>0</b></c-c></r-r>"
        ∷ codes "event 1 ran"
        ∷ codes "page 1"
        ∷ codes "<r-r><u>-</u><i>+</i><c-c><b>1</b></c-c></r-r>"
        ∷ codes "event 2 held"
        ∷ codes "page 2"
        ∷ codes "<r-r><u>-</u><i>+</i><c-c><b>1</b></c-c></r-r>"
        ∷ codes "event 3 ran"
        ∷ codes "page 3"
        ∷ codes "<r-r><u>-</u><i>+</i><c-c><b>1</b></c-c></r-r>"
        ∷ codes "event 4 ran"
        ∷ codes "page 4"
        ∷ codes "<r-r><u>-</u><i>+</i><c-c><b>1</b></c-c></r-r>"
        ∷ codes "event 5 flushed"
        ∷ codes "page 5"
        ∷ codes "<r-r><u>-</u><i>+</i><c-c><b>1</b></c-c></r-r>"
        ∷ codes "end 5"
        ∷ [] }
    ensures released { lines held_view pages true (click (codes "b") 1 ∷ click (codes "u") 1 ∷ click (codes "i") 1 ∷ [])
        ≡ codes "page 0"
        ∷ codes "<r-r><u>-</u><i>+</i><c-c><b>0</b></c-c></r-r>"
        ∷ codes "event 1 ran"
        ∷ codes "page 1"
        ∷ codes "<r-r><u>-</u><i>+</i><c-c><b>1</b></c-c></r-r>"
        ∷ codes "event 2 ran"
        ∷ codes "page 2"
        ∷ codes "<r-r><u>-</u><i>+</i></r-r>"
        ∷ codes "event 3 ran"
        ∷ codes "page 3"
        ∷ codes "<r-r><u>-</u><i>+</i><c-c><b>0</b></c-c></r-r>"
        ∷ codes "end 3"
        ∷ [] }
{}

/// Held events bubble as others do.
pub fn held_events_bubble()
    ensures every { lines held_bubbling pages true (hold ∷ click (codes "b") 1 ∷ click (codes "div") 1 ∷ flush ∷ [])
        ≡ codes "page 0"
        ∷ codes "<r-r><div><b>00</b></div></r-r>"
        ∷ codes "event 1 held"
        ∷ codes "page 1"
        ∷ codes "<r-r><div><b>00</b></div></r-r>"
        ∷ codes "event 2 ran"
        ∷ codes "page 2"
        ∷ codes "<r-r><div><b>00</b></div></r-r>"
        ∷ codes "event 3 ran"
        ∷ codes "page 3"
        ∷ codes "<r-r><div><b>00</b></div></r-r>"
        ∷ codes "event 4 flushed"
        ∷ codes "page 4"
        ∷ codes "<r-r><div><b>12</b></div></r-r>"
        ∷ codes "end 4"
        ∷ [] }
    ensures due { lines held_bubbling pages false (hold ∷ click (codes "b") 1 ∷ click (codes "div") 1 ∷ flush ∷ [])
        ≡ codes "page 0"
        ∷ codes "<r-r><div><b>00</b></div></r-r>"
        ∷ codes "event 1 held"
        ∷ codes "page 1"
        ∷ codes "<r-r><div><b>00</b></div></r-r>"
        ∷ codes "event 2 ran"
        ∷ codes "page 2"
        ∷ codes "<r-r><div><b>00</b></div></r-r>"
        ∷ codes "event 3 ran"
        ∷ codes "page 3"
        ∷ codes "<r-r><div><b>00</b></div></r-r>"
        ∷ codes "event 4 flushed"
        ∷ codes "page 4"
        ∷ codes "<r-r><div><b>12</b></div></r-r>"
        ∷ codes "end 4"
        ∷ [] }
{}

/// A held call that has a fault asks for a pass as others do.
pub fn faulted_calls_ask_for_a_pass()
    ensures member { lines held_call traces false (hold ∷ call (codes "S") (codes "nope") ∷ flush ∷ [])
        ≡ codes "check . R"
        ∷ codes "page 0"
        ∷ codes "<r-r>0</r-r>"
        ∷ codes "event 1 held"
        ∷ codes "page 1"
        ∷ codes "<r-r>0</r-r>"
        ∷ codes "event 2 fault NoMember"
        ∷ codes "page 2"
        ∷ codes "<r-r>0</r-r>"
        ∷ codes "event 3 flushed"
        ∷ codes "check . R"
        ∷ codes "page 3"
        ∷ codes "<r-r>0</r-r>"
        ∷ codes "end 3"
        ∷ [] }
    ensures provider { lines held_call traces false (hold ∷ call (codes "T") (codes "put") ∷ flush ∷ [])
        ≡ codes "check . R"
        ∷ codes "page 0"
        ∷ codes "<r-r>0</r-r>"
        ∷ codes "event 1 held"
        ∷ codes "page 1"
        ∷ codes "<r-r>0</r-r>"
        ∷ codes "event 2 fault NoProvider(T)"
        ∷ codes "page 2"
        ∷ codes "<r-r>0</r-r>"
        ∷ codes "event 3 flushed"
        ∷ codes "check . R"
        ∷ codes "page 3"
        ∷ codes "<r-r>0</r-r>"
        ∷ codes "end 3"
        ∷ [] }
{}
