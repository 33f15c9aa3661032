//! Faults, events that reach nothing, and the order of a pass.

ghost use Rattle.std.specs.Prelude.{◌≡◌, [], ◌∷◌, true, false, codes};
ghost use Rattle.ng_meaning.specs.Lines.{lines};
ghost use Rattle.ng_rows.specs.Build.{click, pages, full};
ghost use Rattle.ng_rows.specs.Faults.{zero_divisor, greatest_number, missing_provider, needs_itself, inside_itself, unlistened, endless_calls, early_content};

/// A fault of a pass ends the run. It has the place of the interpolation, and the path of its view.
pub fn pass_faults_end_the_run()
    ensures every { lines zero_divisor pages true (click (codes "i") 1 ∷ click (codes "i") 1 ∷ [])
        ≡ codes "page 0"
        ∷ codes "<r-r><i>1</i></r-r>"
        ∷ codes "event 1 ran"
        ∷ codes "fault DivideByZero at 4:32 in R ."
        ∷ [] }
    ensures due { lines zero_divisor pages false (click (codes "i") 1 ∷ click (codes "i") 1 ∷ [])
        ≡ codes "page 0"
        ∷ codes "<r-r><i>1</i></r-r>"
        ∷ codes "event 1 ran"
        ∷ codes "fault DivideByZero at 4:32 in R ."
        ∷ [] }
{}

/// A fault of a statement ends the event, and a pass follows.
pub fn statement_faults_end_the_event()
    ensures every { lines greatest_number pages true (click (codes "button") 1 ∷ click (codes "button") 1 ∷ [])
        ≡ codes "page 0"
        ∷ codes "<r-r><button>0</button></r-r>"
        ∷ codes "event 1 fault Overflow"
        ∷ codes "page 1"
        ∷ codes "<r-r><button>0</button></r-r>"
        ∷ codes "event 2 fault Overflow"
        ∷ codes "page 2"
        ∷ codes "<r-r><button>0</button></r-r>"
        ∷ codes "end 2"
        ∷ [] }
    ensures due { lines greatest_number pages false (click (codes "button") 1 ∷ click (codes "button") 1 ∷ [])
        ≡ codes "page 0"
        ∷ codes "<r-r><button>0</button></r-r>"
        ∷ codes "event 1 fault Overflow"
        ∷ codes "page 1"
        ∷ codes "<r-r><button>0</button></r-r>"
        ∷ codes "event 2 fault Overflow"
        ∷ codes "page 2"
        ∷ codes "<r-r><button>0</button></r-r>"
        ∷ codes "end 2"
        ∷ [] }
{}

/// A token that nothing provides is a fault at the `inject` that asks for it.
pub fn missing_provider_is_refused()
    ensures every { lines missing_provider pages true []
        ≡ codes "fault NoProvider(S) at 5:3 in R ."
        ∷ [] }
    ensures due { lines missing_provider pages false []
        ≡ codes "fault NoProvider(S) at 5:3 in R ."
        ∷ [] }
{}

/// A service that is needed for itself is a fault at the `inject` that asked first.
pub fn circles_are_refused()
    ensures every { lines needs_itself pages true []
        ≡ codes "fault CircularDependency(S) at 4:3 in R ."
        ∷ [] }
    ensures due { lines needs_itself pages false []
        ≡ codes "fault CircularDependency(S) at 4:3 in R ."
        ∷ [] }
{}

/// A view with more than 63 steps is a fault at the host that it is entered by.
pub fn paths_have_63_steps()
    ensures every { lines inside_itself pages true []
        ≡ codes "fault TooDeep at 3:13 in A ./0/0/0/0/0/0/0/0/0/0/0/0/0/0/0/0/0/0/0/0/0/0/0/0/0/0/0/0/0/0/0/0/0/0/0/0/0/0/0/0/0/0/0/0/0/0/0/0/0/0/0/0/0/0/0/0/0/0/0/0/0/0/0"
        ∷ [] }
    ensures due { lines inside_itself pages false []
        ≡ codes "fault TooDeep at 3:13 in A ./0/0/0/0/0/0/0/0/0/0/0/0/0/0/0/0/0/0/0/0/0/0/0/0/0/0/0/0/0/0/0/0/0/0/0/0/0/0/0/0/0/0/0/0/0/0/0/0/0/0/0/0/0/0/0/0/0/0/0/0/0/0/0"
        ∷ [] }
{}

/// Without the element, or a listener on it, no pass follows and the page is printed again.
pub fn events_may_reach_nothing()
    ensures every { lines unlistened full true (click (codes "button") 3 ∷ click (codes "span") 1 ∷ [])
        ≡ codes "check . R"
        ∷ codes "page 0"
        ∷ codes "<r-r><button>a</button><button>b</button><span>c</span></r-r>"
        ∷ codes "inst . R"
        ∷ codes "event 1 no-target"
        ∷ codes "page 1"
        ∷ codes "<r-r><button>a</button><button>b</button><span>c</span></r-r>"
        ∷ codes "inst . R"
        ∷ codes "event 2 no-listener"
        ∷ codes "page 2"
        ∷ codes "<r-r><button>a</button><button>b</button><span>c</span></r-r>"
        ∷ codes "inst . R"
        ∷ codes "end 2"
        ∷ [] }
    ensures due { lines unlistened full false (click (codes "button") 3 ∷ click (codes "span") 1 ∷ [])
        ≡ codes "check . R"
        ∷ codes "page 0"
        ∷ codes "<r-r><button>a</button><button>b</button><span>c</span></r-r>"
        ∷ codes "inst . R"
        ∷ codes "event 1 no-target"
        ∷ codes "page 1"
        ∷ codes "<r-r><button>a</button><button>b</button><span>c</span></r-r>"
        ∷ codes "inst . R"
        ∷ codes "event 2 no-listener"
        ∷ codes "page 2"
        ∷ codes "<r-r><button>a</button><button>b</button><span>c</span></r-r>"
        ∷ codes "inst . R"
        ∷ codes "end 2"
        ∷ [] }
{}

/// At most 64 calls are open, the listener being the first; what was written before the fault stays.
pub fn calls_nest_64_deep()
    ensures every { lines endless_calls pages true (click (codes "u") 1 ∷ [])
        ≡ codes "page 0"
        ∷ codes "<r-r><u>0</u></r-r>"
        ∷ codes "event 1 fault CallTooDeep"
        ∷ codes "page 1"
        ∷ codes "<r-r><u>63</u></r-r>"
        ∷ codes "end 1"
        ∷ [] }
    ensures due { lines endless_calls pages false (click (codes "u") 1 ∷ [])
        ≡ codes "page 0"
        ∷ codes "<r-r><u>0</u></r-r>"
        ∷ codes "event 1 fault CallTooDeep"
        ∷ codes "page 1"
        ∷ codes "<r-r><u>63</u></r-r>"
        ∷ codes "end 1"
        ∷ [] }
{}

/// Content in a block is visited before its host has its inputs, and content beside it after.
pub fn blocks_come_before_hosts()
    ensures every { lines early_content full true []
        ≡ codes "check . R"
        ∷ codes "check ./1?0/2 K"
        ∷ codes "check ./0 P"
        ∷ codes "check ./3 K"
        ∷ codes "page 0"
        ∷ codes "<r-r><p-p v=\"2\"><k-k>1</k-k><k-k>2</k-k></p-p></r-r>"
        ∷ codes "inst . R"
        ∷ codes "inst ./0 P"
        ∷ codes "inst ./1?0/2 K"
        ∷ codes "inject p = ./0"
        ∷ codes "inst ./3 K"
        ∷ codes "inject p = ./0"
        ∷ codes "end 0"
        ∷ [] }
    ensures due { lines early_content full false []
        ≡ codes "check . R"
        ∷ codes "check ./1?0/2 K"
        ∷ codes "check ./0 P"
        ∷ codes "check ./3 K"
        ∷ codes "page 0"
        ∷ codes "<r-r><p-p v=\"2\"><k-k>1</k-k><k-k>2</k-k></p-p></r-r>"
        ∷ codes "inst . R"
        ∷ codes "inst ./0 P"
        ∷ codes "inst ./1?0/2 K"
        ∷ codes "inject p = ./0"
        ∷ codes "inst ./3 K"
        ∷ codes "inject p = ./0"
        ∷ codes "end 0"
        ∷ [] }
{}
