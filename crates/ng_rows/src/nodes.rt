//! The live nodes of trees.

ghost use Rattle.std.specs.Prelude.{◌≡◌, [], ◌∷◌, Some, None, codes};
ghost use Rattle.ng_tree.specs.declared.NodeId.TheVariants as id;
ghost use Rattle.ng_tree.specs.declared.Step.TheVariants as step;
ghost use Rattle.ng_rows.specs.Build.{click};
ghost use Rattle.ng_rows.specs.Nodes.{absent_attribute, unshown_content, live_nodes, element};

/// An attribute that isn't set is absent in its place, behind the static one; it is there after the click.
pub fn absent_attributes_have_a_place()
    ensures element { live_nodes absent_attribute (click (codes "b") 1 ∷ []) (id.At [] 0)
        ≡ element (codes "b") ((codes "title", Some (codes "x")) ∷ (codes "id", None) ∷ []) (id.At [] 1 ∷ [])
        ∷ element (codes "b") ((codes "title", Some (codes "x")) ∷ (codes "id", Some (codes "a")) ∷ []) (id.At [] 1 ∷ [])
        ∷ [] }
    ensures root { live_nodes absent_attribute [] id.Root ≡ element (codes "r-r") [] (id.At [] 0 ∷ []) ∷ [] }
    ensures others { live_nodes absent_attribute [] (id.At [] 2) ≡ None ∷ [] }
{}

/// Content that no slot shows is live, with what stands in it, and its host has what its own view shows.
pub fn unshown_content_is_live()
    ensures content { live_nodes unshown_content [] (id.At [] 1) ≡ element (codes "i") [] (id.At [] 2 ∷ []) ∷ [] }
    ensures host { live_nodes unshown_content [] (id.At [] 0) ≡ element (codes "k-k") [] (id.At (step.Child 0 ∷ []) 0 ∷ []) ∷ [] }
{}
