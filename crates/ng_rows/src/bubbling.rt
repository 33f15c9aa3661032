//! Events that bubble.

ghost use Rattle.std.specs.Prelude.{◌≡◌, [], ◌∷◌, true, false, pos, codes};
ghost use Rattle.ng_values.specs.declared.value.Value.TheVariants as val;
ghost use Rattle.ng_meaning.specs.Lines.{lines};
ghost use Rattle.ng_rows.specs.Build.{click, fire, fire_with, pages, traces};
ghost use Rattle.ng_rows.specs.Bubbling.{two_listeners, faulty_inside, focus_outside, three_listeners, faulty_middle, quiet_target, host_on_the_way, shown_content, marked_on_the_way, hidden_on_the_way, kin_of_focus, shared_value, faulty_output, emitting_content, outlet_on_the_way, rows_on_the_way, nested_tags, deep_listeners};

/// A click runs the listener of its target, and then those of its ancestors on the page.
pub fn click_runs_both()
    ensures every { lines two_listeners pages true (click (codes "b") 1 ∷ [])
        ≡ codes "page 0"
        ∷ codes "<r-r><div><b>00</b></div></r-r>"
        ∷ codes "event 1 ran"
        ∷ codes "page 1"
        ∷ codes "<r-r><div><b>11</b></div></r-r>"
        ∷ codes "end 1"
        ∷ [] }
    ensures outer { lines two_listeners pages false (click (codes "div") 1 ∷ [])
        ≡ codes "page 0"
        ∷ codes "<r-r><div><b>00</b></div></r-r>"
        ∷ codes "event 1 ran"
        ∷ codes "page 1"
        ∷ codes "<r-r><div><b>01</b></div></r-r>"
        ∷ codes "end 1"
        ∷ [] }
{}

/// After a fault no further listener starts. Here it is in the inner one.
pub fn fault_ends_the_way()
    ensures every { lines faulty_inside pages true (click (codes "b") 1 ∷ [])
        ≡ codes "page 0"
        ∷ codes "<r-r><div><b>00</b></div></r-r>"
        ∷ codes "event 1 fault DivideByZero"
        ∷ codes "page 1"
        ∷ codes "<r-r><div><b>00</b></div></r-r>"
        ∷ codes "end 1"
        ∷ [] }
    ensures due { lines faulty_inside pages false (click (codes "b") 1 ∷ [])
        ≡ codes "page 0"
        ∷ codes "<r-r><div><b>00</b></div></r-r>"
        ∷ codes "event 1 fault DivideByZero"
        ∷ codes "page 1"
        ∷ codes "<r-r><div><b>00</b></div></r-r>"
        ∷ codes "end 1"
        ∷ [] }
{}

/// The event `focus` stays at its target: a listener further up is none for it.
pub fn focus_stays()
    ensures every { lines focus_outside pages true (fire (codes "focus") (codes "b") 1 ∷ fire (codes "focus") (codes "div") 1 ∷ [])
        ≡ codes "page 0"
        ∷ codes "<r-r><div><b>00</b></div></r-r>"
        ∷ codes "event 1 no-listener"
        ∷ codes "page 1"
        ∷ codes "<r-r><div><b>00</b></div></r-r>"
        ∷ codes "event 2 ran"
        ∷ codes "page 2"
        ∷ codes "<r-r><div><b>01</b></div></r-r>"
        ∷ codes "end 2"
        ∷ [] }
    ensures due { lines focus_outside pages false (fire (codes "focus") (codes "b") 1 ∷ fire (codes "focus") (codes "div") 1 ∷ [])
        ≡ codes "page 0"
        ∷ codes "<r-r><div><b>00</b></div></r-r>"
        ∷ codes "event 1 no-listener"
        ∷ codes "page 1"
        ∷ codes "<r-r><div><b>00</b></div></r-r>"
        ∷ codes "event 2 ran"
        ∷ codes "page 2"
        ∷ codes "<r-r><div><b>01</b></div></r-r>"
        ∷ codes "end 2"
        ∷ [] }
{}

/// Three listeners on one way run innermost first: each sees what the one before it wrote.
pub fn inner_comes_first()
    ensures every { lines three_listeners pages true (click (codes "b") 1 ∷ click (codes "i") 1 ∷ [])
        ≡ codes "page 0"
        ∷ codes "<r-r><p><i><b>0</b></i></p></r-r>"
        ∷ codes "event 1 ran"
        ∷ codes "page 1"
        ∷ codes "<r-r><p><i><b>123</b></i></p></r-r>"
        ∷ codes "event 2 ran"
        ∷ codes "page 2"
        ∷ codes "<r-r><p><i><b>12323</b></i></p></r-r>"
        ∷ codes "end 2"
        ∷ [] }
    ensures outermost { lines three_listeners pages true (click (codes "p") 1 ∷ [])
        ≡ codes "page 0"
        ∷ codes "<r-r><p><i><b>0</b></i></p></r-r>"
        ∷ codes "event 1 ran"
        ∷ codes "page 1"
        ∷ codes "<r-r><p><i><b>3</b></i></p></r-r>"
        ∷ codes "end 1"
        ∷ [] }
{}

/// A fault in the middle of a way keeps what was written before it, also by its own listener, and the outer listener isn't started.
pub fn fault_in_the_middle()
    ensures every { lines faulty_middle pages true (click (codes "b") 1 ∷ [])
        ≡ codes "page 0"
        ∷ codes "<r-r><p><i><b>0</b></i></p></r-r>"
        ∷ codes "event 1 fault DivideByZero"
        ∷ codes "page 1"
        ∷ codes "<r-r><p><i><b>11</b></i></p></r-r>"
        ∷ codes "end 1"
        ∷ [] }
    ensures due { lines faulty_middle pages false (click (codes "b") 1 ∷ [])
        ≡ codes "page 0"
        ∷ codes "<r-r><p><i><b>0</b></i></p></r-r>"
        ∷ codes "event 1 fault DivideByZero"
        ∷ codes "page 1"
        ∷ codes "<r-r><p><i><b>11</b></i></p></r-r>"
        ∷ codes "end 1"
        ∷ [] }
{}

/// A target without a listener is no `no-listener` while an ancestor listens, and one that nothing listens for on the way is.
pub fn targets_need_no_listener()
    ensures every { lines quiet_target pages true (click (codes "b") 1 ∷ fire (codes "input") (codes "b") 1 ∷ click (codes "r-r") 1 ∷ [])
        ≡ codes "page 0"
        ∷ codes "<r-r><p><i><b>0</b></i></p></r-r>"
        ∷ codes "event 1 ran"
        ∷ codes "page 1"
        ∷ codes "<r-r><p><i><b>1</b></i></p></r-r>"
        ∷ codes "event 2 no-listener"
        ∷ codes "page 2"
        ∷ codes "<r-r><p><i><b>1</b></i></p></r-r>"
        ∷ codes "event 3 no-listener"
        ∷ codes "page 3"
        ∷ codes "<r-r><p><i><b>1</b></i></p></r-r>"
        ∷ codes "end 3"
        ∷ [] }
    ensures due { lines quiet_target pages false (click (codes "b") 1 ∷ fire (codes "input") (codes "b") 1 ∷ click (codes "r-r") 1 ∷ [])
        ≡ codes "page 0"
        ∷ codes "<r-r><p><i><b>0</b></i></p></r-r>"
        ∷ codes "event 1 ran"
        ∷ codes "page 1"
        ∷ codes "<r-r><p><i><b>1</b></i></p></r-r>"
        ∷ codes "event 2 no-listener"
        ∷ codes "page 2"
        ∷ codes "<r-r><p><i><b>1</b></i></p></r-r>"
        ∷ codes "event 3 no-listener"
        ∷ codes "page 3"
        ∷ codes "<r-r><p><i><b>1</b></i></p></r-r>"
        ∷ codes "end 3"
        ∷ [] }
{}

/// A way goes on from a component to its host and to what encloses the host. An output of that name is no event at the host.
pub fn ways_leave_components()
    ensures every { lines host_on_the_way pages true (click (codes "b") 1 ∷ fire (codes "change") (codes "b") 1 ∷ fire (codes "change") (codes "k-k") 1 ∷ [])
        ≡ codes "page 0"
        ∷ codes "<r-r><p><k-k><b>0</b></k-k>0</p></r-r>"
        ∷ codes "event 1 ran"
        ∷ codes "page 1"
        ∷ codes "<r-r><p><k-k><b>1</b></k-k>12</p></r-r>"
        ∷ codes "event 2 ran"
        ∷ codes "page 2"
        ∷ codes "<r-r><p><k-k><b>1</b></k-k>1012</p></r-r>"
        ∷ codes "event 3 ran"
        ∷ codes "page 3"
        ∷ codes "<r-r><p><k-k><b>1</b></k-k>2012</p></r-r>"
        ∷ codes "end 3"
        ∷ [] }
    ensures due { lines host_on_the_way pages false (click (codes "b") 1 ∷ fire (codes "change") (codes "b") 1 ∷ fire (codes "change") (codes "k-k") 1 ∷ [])
        ≡ codes "page 0"
        ∷ codes "<r-r><p><k-k><b>0</b></k-k>0</p></r-r>"
        ∷ codes "event 1 ran"
        ∷ codes "page 1"
        ∷ codes "<r-r><p><k-k><b>1</b></k-k>12</p></r-r>"
        ∷ codes "event 2 ran"
        ∷ codes "page 2"
        ∷ codes "<r-r><p><k-k><b>1</b></k-k>1012</p></r-r>"
        ∷ codes "event 3 ran"
        ∷ codes "page 3"
        ∷ codes "<r-r><p><k-k><b>1</b></k-k>2012</p></r-r>"
        ∷ codes "end 3"
        ∷ [] }
{}

/// The way of content goes by the page: through the component that shows it, and not only through what encloses it in its own template.
pub fn content_bubbles_by_the_page()
    ensures every { lines shown_content pages true (click (codes "b") 1 ∷ [])
        ≡ codes "page 0"
        ∷ codes "<r-r><p><k-k><u><b>0</b>0</u></k-k></p></r-r>"
        ∷ codes "event 1 ran"
        ∷ codes "page 1"
        ∷ codes "<r-r><p><k-k><u><b>11</b>1</u></k-k></p></r-r>"
        ∷ codes "end 1"
        ∷ [] }
    ensures due { lines shown_content pages false (click (codes "b") 1 ∷ [])
        ≡ codes "page 0"
        ∷ codes "<r-r><p><k-k><u><b>0</b>0</u></k-k></p></r-r>"
        ∷ codes "event 1 ran"
        ∷ codes "page 1"
        ∷ codes "<r-r><p><k-k><u><b>11</b>1</u></k-k></p></r-r>"
        ∷ codes "end 1"
        ∷ [] }
{}

/// Each listener that starts marks its instance. An instance that the way only passes isn't marked, and is checked for another reason or not at all.
pub fn only_starts_mark()
    ensures due { lines marked_on_the_way traces false (click (codes "b") 1 ∷ [])
        ≡ codes "check . R"
        ∷ codes "check ./0 A"
        ∷ codes "check ./1 B"
        ∷ codes "page 0"
        ∷ codes "<r-r><a-a><u><b-b><s>0<b>x</b></s></b-b></u></a-a></r-r>"
        ∷ codes "event 1 ran"
        ∷ codes "check . R"
        ∷ codes "check ./1 B"
        ∷ codes "page 1"
        ∷ codes "<r-r><a-a><u><b-b><s>1<b>x</b></s></b-b></u></a-a></r-r>"
        ∷ codes "end 1"
        ∷ [] }
    ensures every { lines marked_on_the_way traces true (click (codes "b") 1 ∷ [])
        ≡ codes "check . R"
        ∷ codes "check ./0 A"
        ∷ codes "check ./1 B"
        ∷ codes "page 0"
        ∷ codes "<r-r><a-a><u><b-b><s>0<b>x</b></s></b-b></u></a-a></r-r>"
        ∷ codes "event 1 ran"
        ∷ codes "check . R"
        ∷ codes "check ./0 A"
        ∷ codes "check ./1 B"
        ∷ codes "page 1"
        ∷ codes "<r-r><a-a><u><b-b><s>1<b>x</b></s></b-b></u></a-a></r-r>"
        ∷ codes "end 1"
        ∷ [] }
{}

/// The way is that of the page as it was shown: what a listener hides stays on it, and its outer listeners run.
pub fn ways_are_of_the_last_page()
    ensures every { lines hidden_on_the_way pages true (click (codes "b") 1 ∷ click (codes "b") 1 ∷ [])
        ≡ codes "page 0"
        ∷ codes "<r-r><p><b>x</b>0</p></r-r>"
        ∷ codes "event 1 ran"
        ∷ codes "page 1"
        ∷ codes "<r-r><p>1</p></r-r>"
        ∷ codes "event 2 no-target"
        ∷ codes "page 2"
        ∷ codes "<r-r><p>1</p></r-r>"
        ∷ codes "end 2"
        ∷ [] }
    ensures due { lines hidden_on_the_way pages false (click (codes "b") 1 ∷ click (codes "b") 1 ∷ [])
        ≡ codes "page 0"
        ∷ codes "<r-r><p><b>x</b>0</p></r-r>"
        ∷ codes "event 1 ran"
        ∷ codes "page 1"
        ∷ codes "<r-r><p>1</p></r-r>"
        ∷ codes "event 2 no-target"
        ∷ codes "page 2"
        ∷ codes "<r-r><p>1</p></r-r>"
        ∷ codes "end 2"
        ∷ [] }
{}

/// So do `mouseenter`, `mouseleave`, `blur` and `scroll`. Other events bubble.
pub fn kin_of_focus_stay()
    ensures every { lines kin_of_focus pages true (fire (codes "mouseenter") (codes "b") 1 ∷ fire (codes "mouseleave") (codes "b") 1 ∷ fire (codes "blur") (codes "b") 1 ∷ fire (codes "scroll") (codes "b") 1 ∷ fire (codes "input") (codes "b") 1 ∷ [])
        ≡ codes "page 0"
        ∷ codes "<r-r><div><b>00</b></div></r-r>"
        ∷ codes "event 1 no-listener"
        ∷ codes "page 1"
        ∷ codes "<r-r><div><b>00</b></div></r-r>"
        ∷ codes "event 2 no-listener"
        ∷ codes "page 2"
        ∷ codes "<r-r><div><b>00</b></div></r-r>"
        ∷ codes "event 3 no-listener"
        ∷ codes "page 3"
        ∷ codes "<r-r><div><b>00</b></div></r-r>"
        ∷ codes "event 4 no-listener"
        ∷ codes "page 4"
        ∷ codes "<r-r><div><b>00</b></div></r-r>"
        ∷ codes "event 5 ran"
        ∷ codes "page 5"
        ∷ codes "<r-r><div><b>05</b></div></r-r>"
        ∷ codes "end 5"
        ∷ [] }
    ensures due { lines kin_of_focus pages false (fire (codes "mouseenter") (codes "b") 1 ∷ fire (codes "mouseleave") (codes "b") 1 ∷ fire (codes "blur") (codes "b") 1 ∷ fire (codes "scroll") (codes "b") 1 ∷ fire (codes "input") (codes "b") 1 ∷ [])
        ≡ codes "page 0"
        ∷ codes "<r-r><div><b>00</b></div></r-r>"
        ∷ codes "event 1 no-listener"
        ∷ codes "page 1"
        ∷ codes "<r-r><div><b>00</b></div></r-r>"
        ∷ codes "event 2 no-listener"
        ∷ codes "page 2"
        ∷ codes "<r-r><div><b>00</b></div></r-r>"
        ∷ codes "event 3 no-listener"
        ∷ codes "page 3"
        ∷ codes "<r-r><div><b>00</b></div></r-r>"
        ∷ codes "event 4 no-listener"
        ∷ codes "page 4"
        ∷ codes "<r-r><div><b>00</b></div></r-r>"
        ∷ codes "event 5 ran"
        ∷ codes "page 5"
        ∷ codes "<r-r><div><b>05</b></div></r-r>"
        ∷ codes "end 5"
        ∷ [] }
{}

/// Each listener of the way has the value of the event as `$event`.
pub fn listeners_share_the_value()
    ensures every { lines shared_value pages true (fire_with (codes "input") (codes "b") 1 (val.Int (pos 5)) ∷ [])
        ≡ codes "page 0"
        ∷ codes "<r-r><div><b>00</b></div></r-r>"
        ∷ codes "event 1 ran"
        ∷ codes "page 1"
        ∷ codes "<r-r><div><b>65</b></div></r-r>"
        ∷ codes "end 1"
        ∷ [] }
    ensures due { lines shared_value pages false (fire_with (codes "input") (codes "b") 1 (val.Int (pos 5)) ∷ [])
        ≡ codes "page 0"
        ∷ codes "<r-r><div><b>00</b></div></r-r>"
        ∷ codes "event 1 ran"
        ∷ codes "page 1"
        ∷ codes "<r-r><div><b>65</b></div></r-r>"
        ∷ codes "end 1"
        ∷ [] }
{}

/// A fault in the listener of an output ends the listener that emitted, and the way.
pub fn faults_of_outputs_end_the_way()
    ensures every { lines faulty_output pages true (click (codes "b") 1 ∷ [])
        ≡ codes "page 0"
        ∷ codes "<r-r><p><k-k><b>0</b></k-k>0</p></r-r>"
        ∷ codes "event 1 fault DivideByZero"
        ∷ codes "page 1"
        ∷ codes "<r-r><p><k-k><b>1</b></k-k>0</p></r-r>"
        ∷ codes "end 1"
        ∷ [] }
    ensures due { lines faulty_output pages false (click (codes "b") 1 ∷ [])
        ≡ codes "page 0"
        ∷ codes "<r-r><p><k-k><b>0</b></k-k>0</p></r-r>"
        ∷ codes "event 1 fault DivideByZero"
        ∷ codes "page 1"
        ∷ codes "<r-r><p><k-k><b>1</b></k-k>0</p></r-r>"
        ∷ codes "end 1"
        ∷ [] }
{}

/// A listener of the way that emits runs the listener of its host at once, before the way goes on.
pub fn outputs_run_at_once()
    ensures every { lines emitting_content pages true (click (codes "b") 1 ∷ [])
        ≡ codes "page 0"
        ∷ codes "<r-r><p><k-k><u><b>0</b>0</u></k-k></p></r-r>"
        ∷ codes "event 1 ran"
        ∷ codes "page 1"
        ∷ codes "<r-r><p><k-k><u><b>15</b>1</u></k-k></p></r-r>"
        ∷ codes "end 1"
        ∷ [] }
    ensures due { lines emitting_content pages false (click (codes "b") 1 ∷ [])
        ≡ codes "page 0"
        ∷ codes "<r-r><p><k-k><u><b>0</b>0</u></k-k></p></r-r>"
        ∷ codes "event 1 ran"
        ∷ codes "page 1"
        ∷ codes "<r-r><p><k-k><u><b>15</b>1</u></k-k></p></r-r>"
        ∷ codes "end 1"
        ∷ [] }
{}

/// The way of what an outlet shows goes by the outlet, and not by the place of its template.
pub fn outlets_bubble_by_the_page()
    ensures every { lines outlet_on_the_way pages true (click (codes "b") 1 ∷ click (codes "i") 1 ∷ [])
        ≡ codes "page 0"
        ∷ codes "<r-r><i></i><p><b>0</b></p></r-r>"
        ∷ codes "event 1 ran"
        ∷ codes "page 1"
        ∷ codes "<r-r><i></i><p><b>11</b></p></r-r>"
        ∷ codes "event 2 ran"
        ∷ codes "page 2"
        ∷ codes "<r-r><i></i><p><b>111</b></p></r-r>"
        ∷ codes "end 2"
        ∷ [] }
    ensures due { lines outlet_on_the_way pages false (click (codes "b") 1 ∷ click (codes "i") 1 ∷ [])
        ≡ codes "page 0"
        ∷ codes "<r-r><i></i><p><b>0</b></p></r-r>"
        ∷ codes "event 1 ran"
        ∷ codes "page 1"
        ∷ codes "<r-r><i></i><p><b>11</b></p></r-r>"
        ∷ codes "event 2 ran"
        ∷ codes "page 2"
        ∷ codes "<r-r><i></i><p><b>111</b></p></r-r>"
        ∷ codes "end 2"
        ∷ [] }
{}

/// A listener in a row sees the row, and one further out goes on from what it wrote.
pub fn rows_bubble()
    ensures every { lines rows_on_the_way pages true (click (codes "b") 3 ∷ click (codes "b") 2 ∷ [])
        ≡ codes "page 0"
        ∷ codes "<r-r><p><b>7</b><b>8</b><b>9</b></p>0</r-r>"
        ∷ codes "event 1 ran"
        ∷ codes "page 1"
        ∷ codes "<r-r><p><b>7</b><b>8</b><b>9</b></p>20</r-r>"
        ∷ codes "event 2 ran"
        ∷ codes "page 2"
        ∷ codes "<r-r><p><b>7</b><b>8</b><b>9</b></p>210</r-r>"
        ∷ codes "end 2"
        ∷ [] }
    ensures due { lines rows_on_the_way pages false (click (codes "b") 3 ∷ click (codes "b") 2 ∷ [])
        ≡ codes "page 0"
        ∷ codes "<r-r><p><b>7</b><b>8</b><b>9</b></p>0</r-r>"
        ∷ codes "event 1 ran"
        ∷ codes "page 1"
        ∷ codes "<r-r><p><b>7</b><b>8</b><b>9</b></p>20</r-r>"
        ∷ codes "event 2 ran"
        ∷ codes "page 2"
        ∷ codes "<r-r><p><b>7</b><b>8</b><b>9</b></p>210</r-r>"
        ∷ codes "end 2"
        ∷ [] }
{}

/// Elements of one tag inside each other are counted in document order, and the way of the inner one goes through the outer one.
pub fn elements_in_elements_count()
    ensures every { lines nested_tags pages true (click (codes "b") 1 ∷ click (codes "b") 2 ∷ click (codes "b") 3 ∷ [])
        ≡ codes "page 0"
        ∷ codes "<r-r><b><b>x</b></b>0</r-r>"
        ∷ codes "event 1 ran"
        ∷ codes "page 1"
        ∷ codes "<r-r><b><b>x</b></b>1</r-r>"
        ∷ codes "event 2 ran"
        ∷ codes "page 2"
        ∷ codes "<r-r><b><b>x</b></b>13</r-r>"
        ∷ codes "event 3 no-target"
        ∷ codes "page 3"
        ∷ codes "<r-r><b><b>x</b></b>13</r-r>"
        ∷ codes "end 3"
        ∷ [] }
    ensures due { lines nested_tags pages false (click (codes "b") 1 ∷ click (codes "b") 2 ∷ click (codes "b") 3 ∷ [])
        ≡ codes "page 0"
        ∷ codes "<r-r><b><b>x</b></b>0</r-r>"
        ∷ codes "event 1 ran"
        ∷ codes "page 1"
        ∷ codes "<r-r><b><b>x</b></b>1</r-r>"
        ∷ codes "event 2 ran"
        ∷ codes "page 2"
        ∷ codes "<r-r><b><b>x</b></b>13</r-r>"
        ∷ codes "event 3 no-target"
        ∷ codes "page 3"
        ∷ codes "<r-r><b><b>x</b></b>13</r-r>"
        ∷ codes "end 3"
        ∷ [] }
{}

/// Each listener of a way is the first of its open calls: two that go down to the 64th run one after the other.
pub fn calls_are_opened_anew()
    ensures every { lines deep_listeners pages true (click (codes "b") 1 ∷ [])
        ≡ codes "page 0"
        ∷ codes "<r-r><p><b>0</b></p></r-r>"
        ∷ codes "event 1 ran"
        ∷ codes "page 1"
        ∷ codes "<r-r><p><b>11</b></p></r-r>"
        ∷ codes "end 1"
        ∷ [] }
    ensures due { lines deep_listeners pages false (click (codes "b") 1 ∷ [])
        ≡ codes "page 0"
        ∷ codes "<r-r><p><b>0</b></p></r-r>"
        ∷ codes "event 1 ran"
        ∷ codes "page 1"
        ∷ codes "<r-r><p><b>11</b></p></r-r>"
        ∷ codes "end 1"
        ∷ [] }
{}
