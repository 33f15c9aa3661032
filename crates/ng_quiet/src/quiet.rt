//! The two rules of quiet applications.

ghost use Rattle.std.specs.Prelude.{◌≡◌, ◌↔◌, bytes_eq, map, length, IsTrue, IfOk};
ghost use Rattle.std.specs.HashSet.{contains};
ghost use Rattle.ng_quiet.specs.Quiet.{IsQuiet, KeepsFields};
ghost use Rattle.ng_quiet.specs.Used.{AllKeep};

use crate::fields::keeps_fields;
use crate::skipped::skipped;
use crate::survey::{Survey, survey_of};
use ng_ast::{App, Component};
use ng_hosts::components_of;
use ng_values::NgText;
use std::alloc::{AllocError, Global};
use std::collections::HashSet;

fn keeps_rules(
    alloc: Global,
    component: &Component,
    is_skipped: bool,
    is_steady: bool,
    called: &HashSet<NgText>,
) -> Result<bool, AllocError>
    ensures { IfOk result (λ kept. IsTrue kept ↔ (IsTrue is_skipped → IsTrue is_steady × KeepsFields (contains bytes_eq called.now) component.now)) }
{
    if !is_skipped {
        return Ok(true);
    }
    if !is_steady {
        return Ok(false);
    }
    keeps_fields(alloc, component, called)
}

fn all_keep(
    alloc: Global,
    components: &[&Component],
    marks: &[bool],
    survey: &Survey,
) -> Result<bool, AllocError>
    requires marks { length marks.now ≡ length components.now }
    requires steady { length survey.now.steady.items ≡ length components.now }
    ensures { IfOk result (λ kept. IsTrue kept ↔ AllKeep (map (λ c. c.now) components.now) marks.now survey.now.steady.items (contains bytes_eq survey.now.called)) }
{
    for (at, component) in components.iter().enumerate() {
        if !keeps_rules(
            alloc,
            component,
            marks[at],
            survey.steady[at],
            &survey.called,
        )? {
            return Ok(false);
        }
    }
    Ok(true)
}

/// Whether the application is quiet: whether it keeps two rules that are to make it show the same where the checks of unmarked components under
/// change detection `OnPush` are left out. That they do isn't proved here.
///
/// Let S be the least set that holds the OnPush components, used or not, and each component that an element of a template of S matches. An
/// application is quiet where every component of S keeps two rules:
///
/// - Its bindings and getters read nothing but inputs, own fields, own getters, own signals, block variables and `@let`s, and of an
///   injected x the signals, as `x.s()`. Block heads, track expressions, `@let`s, contexts and tests of outlets are bindings; listeners are
///   none. The name of a template in an outlet isn't read. `x`, `x.f`, `x[0]`, `x?.s()`, `(x).s()` and `x.s(1)` of an injected x aren't
///   allowed.
/// - No method of it that assigns a field, itself or by own methods that it calls, has a name that any statement of the application calls
///   through an injected name, a reference or a query.
///
/// `OnPush` is Angular's (<https://angular.dev/best-practices/skipping-subtrees>); the rules are this project's own. Where an application
/// breaks other rules the answer is by this definition too. The only error is want of memory.
///
/// The time is that of looking up the names and the hosts of the elements, and linear in the components that templates use.
pub fn is_quiet(alloc: Global, app: &App) -> Result<bool, AllocError>
    ensures { IfOk result (λ answer. IsTrue answer ↔ IsQuiet app.now) }
{
    let decls = app.decls.as_slice();
    let components = components_of(alloc, decls)?;
    let marks = skipped(alloc, components.as_slice())?;
    let survey = survey_of(alloc, decls)?;
    all_keep(alloc, components.as_slice(), marks.as_slice(), &survey)
}
