//! Which sound applications can be run: one without a form that can't be run yet is of the first form, which the engine runs.
#![tactic(auto)]

ghost use Rattle.std.specs.Prelude.{◌≡◌, None, List, ℕ};
ghost use Rattle.ng_ast.specs.declared.App.{App};
ghost use Rattle.ng_ast.specs.declared.Component.{Component};
ghost use Rattle.ng_semantics.specs.First.{IsAlone, IsFirst};
ghost use Rattle.ng_unbuilt.specs.Least.{least};
ghost use Rattle.ng_unbuilt.specs.Forms.{forms};
ghost use Rattle.ng_rules.specs.Breaks.{IsSound};
ghost use Rattle.ng_app.specs.Reading.{ReadsApp, OverApp};
ghost use Rattle.ng_ready.specs.Sized.{AreSized};

/// A law, with nothing to run: a sound application without a form that can't be run yet is one component of the first form and its
/// `bootstrap`. Of each template it asks that it has at most 4,096 nodes, in at most 32 levels, which are the limits of templates.
pub fn sound_applications_are_first()
    ensures { (app : App) → IsSound app → least (forms app) ≡ None → AreSized app → (c : Component) × IsAlone app c × IsFirst c }
{}

/// A law, with nothing to run: an application that is read within the limits is sized.
pub fn readings_are_sized()
    ensures { (t : List ℕ) (app : App) → ReadsApp t app → (OverApp t → ⊥) → AreSized app }
{}
