//! The names in an expression and in an outlet.

ghost use Rattle.std.specs.Prelude.{◌≡◌, ◌++◌, OnOk, None};
ghost use Rattle.std.specs.List.{flat_map};
ghost use Rattle.std.specs.Option.{option_copied};
ghost use Rattle.ng_scopes.specs.Mentions.{callee, mentions, name_of, owner_of};
ghost use Rattle.ng_scopes.specs.Scope.{meaning_of};
ghost use Rattle.ng_scopes.specs.Usages.{outlet_usages, usages, uses_of};

use crate::scope::Scope;
use crate::usage::{Act, Spot, Usage, push_use};
use ng_ast::{Expr, OutletForm};
use ng_values::NgText;
use std::alloc::AllocError;

/// The name that an expression is.
#[tactic(auto, using(crate::proofs::ExprLaws::name_laws))]
fn name_in(expr: &Expr) -> Option<&NgText>
    ensures { option_copied result ≡ name_of expr.now }
{
    match expr {
        Expr::Name(_, name) => Some(name),
        Expr::Literal(_, _) => None,
        Expr::Group(_, _) => None,
        Expr::List(_, _) => None,
        Expr::Rec(_, _) => None,
        Expr::Unary(_, _, _) => None,
        Expr::Binary(_, _, _, _) => None,
        Expr::Choose(_, _, _, _) => None,
        Expr::Member(_, _, _) => None,
        Expr::Safe(_, _, _) => None,
        Expr::Index(_, _, _) => None,
        Expr::Call(_, _, _) => None,
        Expr::Pipe(_, _, _, _) => None,
    }
}

/// x of `x.s`.
#[tactic(auto, using(crate::proofs::ExprLaws::owner_laws))]
fn owner_in(expr: &Expr) -> Option<&NgText>
    ensures { option_copied result ≡ owner_of expr.now }
{
    match expr {
        Expr::Member(_, of, _) => name_in(of.get()),
        Expr::Name(_, _) => None,
        Expr::Literal(_, _) => None,
        Expr::Group(_, _) => None,
        Expr::List(_, _) => None,
        Expr::Rec(_, _) => None,
        Expr::Unary(_, _, _) => None,
        Expr::Binary(_, _, _, _) => None,
        Expr::Choose(_, _, _, _) => None,
        Expr::Safe(_, _, _) => None,
        Expr::Index(_, _, _) => None,
        Expr::Call(_, _, _) => None,
        Expr::Pipe(_, _, _, _) => None,
    }
}

/// Adds the names in an expression.
#[tactic(auto, using(crate::proofs::ExprLaws::expr_laws))]
#[cycle(expressions)]
pub(crate) fn push_expr(
    spot: Spot,
    scope: &Scope<'_>,
    expr: &Expr,
    found: &mut Vec<Usage>,
) -> Result<(), AllocError>
    ensures { OnOk result (found.new.items ≡ found.old.items ++ usages spot (meaning_of scope.now) expr.now) }
{
    match expr {
        Expr::Literal(_, _) => Ok(()),
        Expr::Name(_, name) => {
            push_use(spot, scope, name, Act::Read, found)?;
            Ok(())
        }
        Expr::Group(_, inner) => {
            push_expr(spot, scope, inner.get(), found)?;
            Ok(())
        }
        Expr::List(_, items) => {
            push_exprs(spot, scope, items.as_slice(), found)?;
            Ok(())
        }
        Expr::Rec(_, pairs) => {
            push_pairs(spot, scope, pairs.as_slice(), found)?;
            Ok(())
        }
        Expr::Unary(_, _, operand) => {
            push_expr(spot, scope, operand.get(), found)?;
            Ok(())
        }
        Expr::Binary(_, _, left, right) => {
            push_expr(spot, scope, left.get(), found)?;
            push_expr(spot, scope, right.get(), found)?;
            Ok(())
        }
        Expr::Choose(_, test, then, other) => {
            push_expr(spot, scope, test.get(), found)?;
            push_expr(spot, scope, then.get(), found)?;
            push_expr(spot, scope, other.get(), found)?;
            Ok(())
        }
        Expr::Member(_, of, _) => {
            push_expr(spot, scope, of.get(), found)?;
            Ok(())
        }
        Expr::Safe(_, of, _) => {
            push_expr(spot, scope, of.get(), found)?;
            Ok(())
        }
        Expr::Index(_, of, at) => {
            push_expr(spot, scope, of.get(), found)?;
            push_expr(spot, scope, at.get(), found)?;
            Ok(())
        }
        Expr::Call(_, callee, arguments) => {
            push_callee(spot, scope, callee.get(), arguments.len(), found)?;
            push_exprs(spot, scope, arguments.as_slice(), found)?;
            Ok(())
        }
        Expr::Pipe(_, of, name, arguments) => {
            push_expr(spot, scope, of.get(), found)?;
            push_use(spot, scope, name, Act::Piped(arguments.len()), found)?;
            push_exprs(spot, scope, arguments.as_slice(), found)?;
            Ok(())
        }
    }
}

/// Adds the names in some expressions.
#[tactic(auto, using(crate::proofs::ExprLaws::expr_laws))]
#[cycle(expressions)]
pub(crate) fn push_exprs(
    spot: Spot,
    scope: &Scope<'_>,
    exprs: &[Expr],
    found: &mut Vec<Usage>,
) -> Result<(), AllocError>
    ensures { OnOk result (found.new.items ≡ found.old.items ++ flat_map (usages spot (meaning_of scope.now)) exprs.now) }
{
    for expr in exprs {
        push_expr(spot, scope, expr, found)?;
    }
    Ok(())
}

#[tactic(auto, using(crate::proofs::ExprLaws::expr_laws))]
#[cycle(expressions)]
fn push_pairs(
    spot: Spot,
    scope: &Scope<'_>,
    pairs: &[(NgText, Expr)],
    found: &mut Vec<Usage>,
) -> Result<(), AllocError>
    ensures { OnOk result (found.new.items ≡ found.old.items ++ flat_map (λ q. usages spot (meaning_of scope.now) q.1) pairs.now) }
{
    for pair in pairs {
        push_expr(spot, scope, &pair.1, found)?;
    }
    Ok(())
}

#[cycle(expressions)]
fn push_callee(
    spot: Spot,
    scope: &Scope<'_>,
    expr: &Expr,
    count: usize,
    found: &mut Vec<Usage>,
) -> Result<(), AllocError>
    ensures { OnOk result (found.new.items ≡ found.old.items ++ uses_of spot (meaning_of scope.now) (callee (name_of expr.now) (owner_of expr.now) count (mentions expr.now))) }
{
    match name_in(expr) {
        Some(name) => {
            push_use(spot, scope, name, Act::Called(count), found)?;
            Ok(())
        }
        None => {
            push_owned(spot, scope, expr, count, found)?;
            Ok(())
        }
    }
}

#[tactic(auto, using(crate::proofs::ExprLaws::callee_laws))]
#[cycle(expressions)]
fn push_owned(
    spot: Spot,
    scope: &Scope<'_>,
    expr: &Expr,
    count: usize,
    found: &mut Vec<Usage>,
) -> Result<(), AllocError>
    ensures { OnOk result (found.new.items ≡ found.old.items ++ uses_of spot (meaning_of scope.now) (callee None (owner_of expr.now) count (mentions expr.now))) }
{
    match owner_in(expr) {
        Some(name) => {
            if count == 0 {
                push_use(spot, scope, name, Act::Asked, found)?;
                return Ok(());
            }
            push_expr(spot, scope, expr, found)?;
            Ok(())
        }
        None => {
            push_expr(spot, scope, expr, found)?;
            Ok(())
        }
    }
}

/// Adds the names in an outlet.
#[tactic(auto, using(crate::proofs::ExprLaws::outlet_laws))]
pub(crate) fn push_outlet(
    spot: Spot,
    scope: &Scope<'_>,
    outlet: &OutletForm,
    found: &mut Vec<Usage>,
) -> Result<(), AllocError>
    ensures { OnOk result (found.new.items ≡ found.old.items ++ outlet_usages spot (meaning_of scope.now) outlet.now) }
{
    match outlet {
        OutletForm::Null => Ok(()),
        OutletForm::Name(_, name) => {
            push_use(spot, scope, name, Act::Outlet, found)?;
            Ok(())
        }
        OutletForm::Choose(_, test, then, other) => {
            push_expr(spot, scope, test, found)?;
            push_outlet(spot, scope, then.get(), found)?;
            push_outlet(spot, scope, other.get(), found)?;
            Ok(())
        }
    }
}
