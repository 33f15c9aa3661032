//! A counter.

ghost use Rattle.std.specs.Prelude.{◌≡◌, [], ◌∷◌, true, false, codes};
ghost use Rattle.ng_meaning.specs.Lines.{lines};
ghost use Rattle.ng_rows.specs.Build.{click, pages, full};
ghost use Rattle.ng_rows.specs.Counter.{counter};

/// Each click adds one.
pub fn clicks_are_counted()
    ensures every { lines counter pages true (click (codes "button") 1 ∷ click (codes "button") 1 ∷ click (codes "button") 1 ∷ [])
        ≡ codes "page 0"
        ∷ codes "<app-counter><button>Clicked 0</button></app-counter>"
        ∷ codes "event 1 ran"
        ∷ codes "page 1"
        ∷ codes "<app-counter><button>Clicked 1</button></app-counter>"
        ∷ codes "event 2 ran"
        ∷ codes "page 2"
        ∷ codes "<app-counter><button>Clicked 2</button></app-counter>"
        ∷ codes "event 3 ran"
        ∷ codes "page 3"
        ∷ codes "<app-counter><button>Clicked 3</button></app-counter>"
        ∷ codes "end 3"
        ∷ [] }
    ensures due { lines counter full false (click (codes "button") 1 ∷ click (codes "button") 1 ∷ click (codes "button") 1 ∷ [])
        ≡ codes "check . Counter"
        ∷ codes "page 0"
        ∷ codes "<app-counter><button>Clicked 0</button></app-counter>"
        ∷ codes "inst . Counter"
        ∷ codes "event 1 ran"
        ∷ codes "check . Counter"
        ∷ codes "page 1"
        ∷ codes "<app-counter><button>Clicked 1</button></app-counter>"
        ∷ codes "inst . Counter"
        ∷ codes "event 2 ran"
        ∷ codes "check . Counter"
        ∷ codes "page 2"
        ∷ codes "<app-counter><button>Clicked 2</button></app-counter>"
        ∷ codes "inst . Counter"
        ∷ codes "event 3 ran"
        ∷ codes "check . Counter"
        ∷ codes "page 3"
        ∷ codes "<app-counter><button>Clicked 3</button></app-counter>"
        ∷ codes "inst . Counter"
        ∷ codes "end 3"
        ∷ [] }
{}
