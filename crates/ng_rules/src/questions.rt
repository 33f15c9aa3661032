//! What a sound application is asked before it runs.

ghost use Rattle.std.specs.Prelude.{◌≡◌, ◌↔◌, IsTrue, IfOk};
ghost use Rattle.ng_quiet.specs.Quiet.{IsQuiet};
ghost use Rattle.ng_unbuilt.specs.Least.{least};
ghost use Rattle.ng_unbuilt.specs.Forms.{forms};

use crate::checker::SoundApp;
use ng_ast::Place;
use ng_quiet::is_quiet;
use std::alloc::{AllocError, Global};

/// Whether the application is quiet: whether it keeps the rules of `ng_quiet::is_quiet`, at the cost told there. The only error is want of
/// memory.
pub fn quiet(alloc: Global, app: &SoundApp) -> Result<bool, AllocError>
    ensures { IfOk result (λ answer. IsTrue answer ↔ IsQuiet app.now) }
{
    is_quiet(alloc, app.app())
}

/// The least place of a form that can't be run yet, or nothing; `ng_unbuilt::unbuilt` says which forms these are, and at what cost. It takes
/// no memory.
pub fn unbuilt(app: &SoundApp) -> Option<Place>
    ensures { result ≡ least (forms app.now) }
{
    ng_unbuilt::unbuilt(app.app())
}
