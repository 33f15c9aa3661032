//! The check of an application.

ghost use Rattle.std.specs.Prelude.{◌≡◌, None, IfOk};
ghost use Rattle.ng_rules.specs.Answers.{Answers};
ghost use Rattle.ng_rules.specs.Breaks as spec;
ghost use Rattle.ng_rules.specs.Found.{IsFound};

use ng_ast::{App, Refusal};
use ng_decl_rules::judge_declarations;
use ng_graph_rules::judge_cycles;
use ng_template_rules::judge_templates;
use std::alloc::{AllocError, Global};
use std::marker::Model;

/// An application that breaks no rule. Contracts see the application.
#[derive(Drop)]
pub struct SoundApp {
    app: App,
}

impl Model for SoundApp {
    ghost use Rattle.ng_ast.specs.declared.App.{App as A};
    ghost use Rattle.ng_ast.specs.contracts.App as row;
    ghost use Rattle.ng_rules.specs.Breaks.{IsSound};

    ghost Value = { A };

    ghost coded = { row.the_row.coded };

    ghost view = { λ s. s.app };

    ghost invariant = { λ s. IsSound s.app };
}

impl SoundApp {
    /// The application.
    pub fn app(&self) -> &App
        ensures same { result.now ≡ self.now }
        ensures sound { spec.IsSound self.now }
    {
        &self.app
    }

    /// The application, which is moved out.
    pub fn into_app(self) -> App
        ensures same { result ≡ self }
        ensures sound { spec.IsSound result }
    {
        self.app
    }
}

/// Why an application isn't sound: its least break, or want of memory. Each hands the application back.
#[derive(Drop)]
pub enum CheckError {
    Refused(Refusal, App),
    Memory(App),
}

/// The least break, if there is a break.
fn find(alloc: Global, app: &App) -> Result<Option<Refusal>, AllocError>
    ensures { IfOk result (IsFound app.now) }
{
    let decls = app.decls.as_slice();
    let mut best = None;
    judge_declarations(alloc, decls, &mut best)?;
    judge_cycles(alloc, decls, &mut best)?;
    judge_templates(alloc, decls, &mut best)?;
    Ok(best)
}

/// Checks the rules N01 to N30 of an application: `Ok` where it breaks none, and else its least break. The rules stand in
/// `ng_breaks`, `ng_decl_rules`, `ng_graph_rules` and `ng_template_rules`.
///
/// Of all breaks that is the least with the first place in the file, by its byte; of several at one place that of the rule with the least
/// number; and of several of that rule the one that its list has first. With the break and for want of memory the application is handed
/// back as it was.
///
/// The rules as they are divided and numbered, and which break is answered, are this project's own; what they speak of is after Angular
/// (<https://angular.dev/guide>).
pub fn check(alloc: Global, app: App) -> Result<SoundApp, CheckError>
    ensures { Answers app result }
{
    match find(alloc, &app) {
        Err(_) => Err(CheckError::Memory(app)),
        Ok(Some(refusal)) => Err(CheckError::Refused(refusal, app)),
        Ok(None) => Ok(SoundApp { app }),
    }
}

/// A law, with nothing to run: an application has one list of breaks.
pub fn one_list_of_breaks()
    ensures { spec.BreaksAreOne }
{}

/// A law, with nothing to run: an application has one least break at most.
pub fn one_least_break()
    ensures { spec.LeastIsOne }
{}

/// A law, with nothing to run: a sound application has no least break.
pub fn sound_breaks_nothing()
    ensures { spec.SoundHasNone }
{}
