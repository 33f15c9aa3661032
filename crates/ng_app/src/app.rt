//! A whole application: its file, and the templates in it.

ghost use Rattle.std.specs.Prelude.{◌≡◌, ◌≤◌, ◌↔◌, List, ℕ, length, IsUtf8, IfOk, IfErr, Err};
ghost use Rattle.std.specs.List.{All};
ghost use Rattle.ng_ast.specs.declared.App.{App as A};
ghost use Rattle.ng_ast.specs.declared.refusals.ReadError.TheVariants as error;
ghost use Rattle.ng_exprs.specs.Reading.{IsOrMemory};
ghost use Rattle.ng_declare.specs.Files.{Refuses};
ghost use Rattle.ng_app.specs.Reading.{ReadsApp, OverApp, NoApp, TemplateKeepsLimits};

use crate::fill::fill_all;
use ng_ast::{App, ReadError};
use ng_declare::read_file;
use std::alloc::Global;

/// Reads an application: a declaration file, with the template of each component. Takes time linear in the bytes, but for what
/// `ng_declare::read_file` takes at constant records.
///
/// `Utf8` comes exactly where the bytes are not UTF-8. Ok comes exactly where they are an application and pass no limit. `Syntax` comes
/// only where they are no application, `Limit` only where a front of the file passes a limit, or where the bytes are a file and a front of
/// a template in it passes one; `ng_declare::read_file` and `ng_templates::read_template` tell these limits. The file is read before its
/// templates, and these in their order. The place of a refusal is where the reader of the file or of the template stopped; no clause fixes
/// it. The grammar of files is this project's own and that of templates is after Angular's, as docs/LANGUAGE.md has them.
pub fn read_app(alloc: Global, bytes: &[u8]) -> Result<App, ReadError>
    requires { length bytes.now ≤ 1048576 }
    ensures utf8 { (result ≡ Err error.Utf8) ↔ (IsUtf8 bytes.now → ⊥) }
    ensures reads { IfOk result (λ app. ReadsApp bytes.now app × (OverApp bytes.now → ⊥)) }
    ensures refused { IfErr result (Refuses (IsUtf8 bytes.now) (NoApp bytes.now) (OverApp bytes.now)) }
    ensures exact { (app : A) → ReadsApp bytes.now app → (OverApp bytes.now → ⊥) → IsOrMemory app result }
{
    let entries = read_file(alloc, bytes)?;
    let decls = fill_all(alloc, entries)?;
    Ok(App { decls })
}

/// A text is one application at most.
pub fn one_app()
    ensures { (t : List ℕ) (a b : A) → ReadsApp t a → ReadsApp t b → a ≡ b }
{}

/// Where no limit is passed, the nodes of each template are read from parts of which no front passes one.
pub fn templates_keep_the_limits()
    ensures { (t : List ℕ) (app : A) → ReadsApp t app → (OverApp t → ⊥) → All TemplateKeepsLimits app.decls }
{}
