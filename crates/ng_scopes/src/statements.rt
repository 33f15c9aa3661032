//! The names in the statements of listeners, methods and `init`.

ghost use Rattle.std.specs.Prelude.{◌≡◌, ◌++◌, OnOk};
ghost use Rattle.std.specs.List.{flat_map};
ghost use Rattle.ng_scopes.specs.Mentions.{owner_mentions};
ghost use Rattle.ng_scopes.specs.Scope.{meaning_of};
ghost use Rattle.ng_scopes.specs.Usages.{stmt_usages, uses_of};

use crate::expressions::{push_expr, push_exprs};
use crate::scope::Scope;
use crate::usage::{Act, Spot, Usage, push_use};
use ng_ast::{Owner, Stmt};
use ng_values::NgText;
use std::alloc::AllocError;

/// Adds the names in an owner of a method that is called with so many arguments.
#[tactic(auto, using(crate::proofs::StmtLaws::owner_laws))]
fn push_owner(
    spot: Spot,
    scope: &Scope<'_>,
    owner: &Owner,
    method: &NgText,
    count: usize,
    found: &mut Vec<Usage>,
) -> Result<(), AllocError>
    ensures { OnOk result (found.new.items ≡ found.old.items ++ uses_of spot (meaning_of scope.now) (owner_mentions method.now count owner.now)) }
{
    let method = method.copy()?;
    match owner {
        Owner::Name(_, name) => {
            push_use(spot, scope, name, Act::Sent(true, method, count), found)?;
            Ok(())
        }
        Owner::Safe(_, name) => {
            push_use(spot, scope, name, Act::Sent(false, method, count), found)?;
            Ok(())
        }
        Owner::Item(_, name, at) => {
            push_use(spot, scope, name, Act::Sent(false, method, count), found)?;
            push_expr(spot, scope, at, found)?;
            Ok(())
        }
    }
}

#[tactic(auto, using(crate::proofs::StmtLaws::stmt_laws))]
#[cycle(statements)]
fn push_stmt(
    spot: Spot,
    scope: &Scope<'_>,
    stmt: &Stmt,
    found: &mut Vec<Usage>,
) -> Result<(), AllocError>
    ensures { OnOk result (found.new.items ≡ found.old.items ++ stmt_usages spot (meaning_of scope.now) stmt.now) }
{
    match stmt {
        Stmt::Set(_, name, value) => {
            push_use(spot, scope, name, Act::Set, found)?;
            push_expr(spot, scope, value, found)?;
            Ok(())
        }
        Stmt::Do(_, name, arguments) => {
            push_use(spot, scope, name, Act::Done(arguments.len()), found)?;
            push_exprs(spot, scope, arguments.as_slice(), found)?;
            Ok(())
        }
        Stmt::Send(_, owner, method, arguments) => {
            push_owner(spot, scope, owner, method, arguments.len(), found)?;
            push_exprs(spot, scope, arguments.as_slice(), found)?;
            Ok(())
        }
        Stmt::If(_, test, then, other) => {
            push_expr(spot, scope, test, found)?;
            push_stmts(spot, scope, then.as_slice(), found)?;
            push_stmts(spot, scope, other.as_slice(), found)?;
            Ok(())
        }
    }
}

/// Adds the names in a list of statements.
#[tactic(auto, using(crate::proofs::StmtLaws::stmt_laws))]
#[cycle(statements)]
pub(crate) fn push_stmts(
    spot: Spot,
    scope: &Scope<'_>,
    stmts: &[Stmt],
    found: &mut Vec<Usage>,
) -> Result<(), AllocError>
    ensures { OnOk result (found.new.items ≡ found.old.items ++ flat_map (stmt_usages spot (meaning_of scope.now)) stmts.now) }
{
    for stmt in stmts {
        push_stmt(spot, scope, stmt, found)?;
    }
    Ok(())
}
