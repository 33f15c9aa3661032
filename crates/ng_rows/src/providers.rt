//! Providers.

ghost use Rattle.std.specs.Prelude.{◌≡◌, [], ◌∷◌, true, false, codes};
ghost use Rattle.ng_meaning.specs.Lines.{lines};
ghost use Rattle.ng_rows.specs.Build.{pages, reports, full};
ghost use Rattle.ng_rows.specs.Providers.{view_provider, aliases};

/// What a component provides to its view is hidden from its content, and a search that ends at the host does not go further.
pub fn content_sees_no_view_provider()
    ensures every { lines view_provider pages true []
        ≡ codes "page 0"
        ∷ codes "<r-r><h-h><k-k>1</k-k><k-k>2</k-k><l-l></l-l></h-h></r-r>"
        ∷ codes "end 0"
        ∷ [] }
    ensures due { lines view_provider pages false []
        ≡ codes "page 0"
        ∷ codes "<r-r><h-h><k-k>1</k-k><k-k>2</k-k><l-l></l-l></h-h></r-r>"
        ∷ codes "end 0"
        ∷ [] }
    ensures report { lines view_provider reports false []
        ≡ codes "page 0"
        ∷ codes "<r-r><h-h><k-k>1</k-k><k-k>2</k-k><l-l></l-l></h-h></r-r>"
        ∷ codes "inst . R"
        ∷ codes "inst ./0 H"
        ∷ codes "inst ./0/0 K"
        ∷ codes "inject t = 1"
        ∷ codes "inst ./1 K"
        ∷ codes "inject t = 2"
        ∷ codes "inst ./2 L"
        ∷ codes "inject t = null"
        ∷ codes "end 0"
        ∷ [] }
    ensures checked { lines view_provider full false []
        ≡ codes "check . R"
        ∷ codes "check ./0 H"
        ∷ codes "check ./0/0 K"
        ∷ codes "check ./1 K"
        ∷ codes "check ./2 L"
        ∷ codes "page 0"
        ∷ codes "<r-r><h-h><k-k>1</k-k><k-k>2</k-k><l-l></l-l></h-h></r-r>"
        ∷ codes "inst . R"
        ∷ codes "inst ./0 H"
        ∷ codes "inst ./0/0 K"
        ∷ codes "inject t = 1"
        ∷ codes "inst ./1 K"
        ∷ codes "inject t = 2"
        ∷ codes "inst ./2 L"
        ∷ codes "inject t = null"
        ∷ codes "end 0"
        ∷ [] }
{}

/// A provider that leads to another token gives what that one gives there. Environments come last, and a search that ends at the host sees no providers but view providers there.
pub fn aliases_lead_to_one_service()
    ensures every { lines aliases full true []
        ≡ codes "check . R"
        ∷ codes "check ./0 C"
        ∷ codes "check ./0/0 K"
        ∷ codes "page 0"
        ∷ codes "<r-r><c-c><k-k>15</k-k></c-c></r-r>"
        ∷ codes "inst . R"
        ∷ codes "inst ./0 C"
        ∷ codes "inject s = ./0 provide S"
        ∷ codes "inst ./0/0 K"
        ∷ codes "inject t = ./0 provide S"
        ∷ codes "inject u = 5"
        ∷ codes "inject s = null"
        ∷ codes "end 0"
        ∷ [] }
    ensures due { lines aliases full false []
        ≡ codes "check . R"
        ∷ codes "check ./0 C"
        ∷ codes "check ./0/0 K"
        ∷ codes "page 0"
        ∷ codes "<r-r><c-c><k-k>15</k-k></c-c></r-r>"
        ∷ codes "inst . R"
        ∷ codes "inst ./0 C"
        ∷ codes "inject s = ./0 provide S"
        ∷ codes "inst ./0/0 K"
        ∷ codes "inject t = ./0 provide S"
        ∷ codes "inject u = 5"
        ∷ codes "inject s = null"
        ∷ codes "end 0"
        ∷ [] }
{}
