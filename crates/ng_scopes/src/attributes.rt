//! The names in attributes, and those that attributes make known.

ghost use Rattle.std.specs.Prelude.{◌≡◌, ◌++◌, OnOk};
ghost use Rattle.std.specs.List.{flat_map};
ghost use Rattle.ng_scopes.specs.Scope.{meaning_of};
ghost use Rattle.ng_scopes.specs.Templates.{attr_known, attr_usages, binding, both_usages, form_usages, let_known, piece_usages};
ghost use Rattle.ng_scopes.specs.Usages.{usages};

use crate::expressions::{push_expr, push_outlet};
use crate::names::{Known, Meaning, push_name};
use crate::scope::Scope;
use crate::statements::push_stmts;
use crate::usage::{Act, Part, Spot, Usage, push_use};
use ng_ast::{AttrForm, Expr, Piece, Place, TAttr};
use ng_values::NgText;
use std::alloc::AllocError;

/// Adds the names in an expression of a binding.
pub(crate) fn push_binding(
    place: Place,
    scope: &Scope<'_>,
    expr: &Expr,
    found: &mut Vec<Usage>,
) -> Result<(), AllocError>
    ensures { OnOk result (found.new.items ≡ found.old.items ++ usages (binding place) (meaning_of scope.now) expr.now) }
{
    let part = Part::Binding;
    push_expr(Spot { place, part }, scope, expr, found)?;
    Ok(())
}

fn push_piece(scope: &Scope<'_>, piece: &Piece, found: &mut Vec<Usage>) -> Result<(), AllocError>
    ensures { OnOk result (found.new.items ≡ found.old.items ++ piece_usages (meaning_of scope.now) piece.now) }
{
    match piece {
        Piece::Text(_) => Ok(()),
        Piece::Value(place, expr) => {
            push_binding(*place, scope, expr, found)?;
            Ok(())
        }
    }
}

/// Adds the names in the interpolations of a text.
pub(crate) fn push_pieces(
    scope: &Scope<'_>,
    pieces: &[Piece],
    found: &mut Vec<Usage>,
) -> Result<(), AllocError>
    ensures { OnOk result (found.new.items ≡ found.old.items ++ flat_map (piece_usages (meaning_of scope.now)) pieces.now) }
{
    for piece in pieces {
        push_piece(scope, piece, found)?;
    }
    Ok(())
}

/// Adds the field of `[( )]`, which is read and set.
fn push_both(
    place: Place,
    scope: &Scope<'_>,
    field: &NgText,
    found: &mut Vec<Usage>,
) -> Result<(), AllocError>
    ensures { OnOk result (found.new.items ≡ found.old.items ++ both_usages place (meaning_of scope.now) field.now) }
{
    let part = Part::Binding;
    push_use(Spot { place, part }, scope, field, Act::Read, found)?;
    let part = Part::Listener;
    push_use(Spot { place, part }, scope, field, Act::Set, found)?;
    Ok(())
}

fn push_form(
    place: Place,
    scope: &Scope<'_>,
    form: &AttrForm,
    found: &mut Vec<Usage>,
) -> Result<(), AllocError>
    ensures { OnOk result (found.new.items ≡ found.old.items ++ form_usages place (meaning_of scope.now) form.now) }
{
    match form {
        AttrForm::Static(_) => Ok(()),
        AttrForm::Joined(pieces) => {
            push_pieces(scope, pieces.as_slice(), found)?;
            Ok(())
        }
        AttrForm::Property(expr) => {
            push_binding(place, scope, expr, found)?;
            Ok(())
        }
        AttrForm::Attribute(expr) => {
            push_binding(place, scope, expr, found)?;
            Ok(())
        }
        AttrForm::Class(expr) => {
            push_binding(place, scope, expr, found)?;
            Ok(())
        }
        AttrForm::Style(_, expr) => {
            push_binding(place, scope, expr, found)?;
            Ok(())
        }
        AttrForm::Listener(stmts) => {
            let part = Part::Listener;
            push_stmts(Spot { place, part }, scope, stmts.as_slice(), found)?;
            Ok(())
        }
        AttrForm::Both(field) => {
            push_both(place, scope, field, found)?;
            Ok(())
        }
        AttrForm::Reference => Ok(()),
        AttrForm::Variable(_) => Ok(()),
        AttrForm::Outlet(outlet) => {
            let part = Part::Binding;
            push_outlet(Spot { place, part }, scope, outlet, found)?;
            Ok(())
        }
        AttrForm::Context(expr) => {
            push_binding(place, scope, expr, found)?;
            Ok(())
        }
    }
}

/// Adds the names in the attributes of an element.
pub(crate) fn push_attrs(
    scope: &Scope<'_>,
    attrs: &[TAttr],
    found: &mut Vec<Usage>,
) -> Result<(), AllocError>
    ensures { OnOk result (found.new.items ≡ found.old.items ++ flat_map (attr_usages (meaning_of scope.now)) attrs.now) }
{
    for attr in attrs {
        push_form(attr.place, scope, &attr.form, found)?;
    }
    Ok(())
}

/// Adds the references of an element, all with one meaning.
pub(crate) fn push_references(
    meaning: Meaning,
    attrs: &[TAttr],
    names: &mut Vec<Known>,
) -> Result<(), AllocError>
    ensures { OnOk result (names.new.items ≡ names.old.items ++ flat_map (attr_known meaning) attrs.now) }
{
    for attr in attrs {
        if let AttrForm::Reference = attr.form {
            push_name(attr.place, &attr.name, meaning, names)?;
        }
    }
    Ok(())
}

/// Adds the variables of an `ng-template`.
pub(crate) fn push_variables(attrs: &[TAttr], names: &mut Vec<Known>) -> Result<(), AllocError>
    ensures { OnOk result (names.new.items ≡ names.old.items ++ flat_map let_known attrs.now) }
{
    for attr in attrs {
        if let AttrForm::Variable(_) = attr.form {
            push_name(attr.place, &attr.name, Meaning::Variable, names)?;
        }
    }
    Ok(())
}
